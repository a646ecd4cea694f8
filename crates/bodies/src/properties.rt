// Properties of an object that is sent: a name and its value.
ghost use Rattle.std.specs.Prelude.{◌≡◌, ◌++◌, ◌+◌, ◌<◌, ◌^◌, length};
ghost use Rattle.octets.specs.Output.{Room, Put};
ghost use Rattle.amf0.specs.Value.{number, boolean, text};
ghost use Rattle.amf0.specs.Encode.{text_bytes, encode};

use octets::Writer;

pub fn put_number_property(w: &mut Writer, name: &[u8], bits: u64)
    requires name_short { length name.now < 2 ^ 16 }
    requires room { Room w.old (length name.now + 11) }
    ensures put { Put w.old (text_bytes name.now ++ encode (number bits)) w.new }
    ensures value { w.new.at ≡ w.old.at + length name.now + 11 }
{
    amf0::put_name(w, name);
    amf0::put_number(w, bits);
}

pub fn put_boolean_property(w: &mut Writer, name: &[u8], b: bool)
    requires name_short { length name.now < 2 ^ 16 }
    requires room { Room w.old (length name.now + 4) }
    ensures put { Put w.old (text_bytes name.now ++ encode (boolean b)) w.new }
    ensures value { w.new.at ≡ w.old.at + length name.now + 4 }
{
    amf0::put_name(w, name);
    amf0::put_boolean(w, b);
}

pub fn put_text_property(w: &mut Writer, name: &[u8], t: &[u8])
    requires name_short { length name.now < 2 ^ 16 }
    requires t_short { length t.now < 2 ^ 16 }
    requires room { Room w.old (length name.now + length t.now + 5) }
    ensures put { Put w.old (text_bytes name.now ++ encode (text t.now)) w.new }
    ensures value { w.new.at ≡ w.old.at + length name.now + length t.now + 5 }
{
    amf0::put_name(w, name);
    amf0::put_text(w, t);
}
