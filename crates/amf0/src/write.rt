// Values put by a writer. They require the space, because only the writers of whole bodies, which have tested it, call them.
ghost use Rattle.std.specs.Prelude.{◌≡◌, ◌+◌, ◌<◌, ◌^◌, length};
ghost use Rattle.octets.specs.Output.{Room, Put};
ghost use Rattle.amf0.specs.Value.{number, boolean, text, null};
ghost use Rattle.amf0.specs.Encode.{encode, text_bytes, object_start, object_end};

use octets::Writer;

// The Number whose pattern is `bits`.
pub fn put_number(w: &mut Writer, bits: u64)
    requires { Room w.old 9 }
    ensures put { Put w.old (encode (number bits)) w.new }
    ensures value { w.new.at ≡ w.old.at + 9 }
{
    w.put_u8(0x00);
    w.put_be64(bits);
}

pub fn put_boolean(w: &mut Writer, b: bool)
    requires { Room w.old 2 }
    ensures put { Put w.old (encode (boolean b)) w.new }
    ensures value { w.new.at ≡ w.old.at + 2 }
{
    w.put_u8(0x01);
    w.put_u8(u8::from(b));
}

// A property's name: a text without its marker.
pub fn put_name(w: &mut Writer, name: &[u8])
    requires name_short { length name.now < 2 ^ 16 }
    requires room { Room w.old (length name.now + 2) }
    ensures put { Put w.old (text_bytes name.now) w.new }
    ensures value { w.new.at ≡ w.old.at + length name.now + 2 }
{
    w.put_be16(name.len() as u16);
    w.put_bytes(name);
}

pub fn put_text(w: &mut Writer, t: &[u8])
    requires t_short { length t.now < 2 ^ 16 }
    requires room { Room w.old (length t.now + 3) }
    ensures put { Put w.old (encode (text t.now)) w.new }
    ensures value { w.new.at ≡ w.old.at + length t.now + 3 }
{
    w.put_u8(0x02);
    put_name(w, t);
}

pub fn put_null(w: &mut Writer)
    requires { Room w.old 1 }
    ensures put { Put w.old (encode null) w.new }
    ensures value { w.new.at ≡ w.old.at + 1 }
{
    w.put_u8(0x05);
}

// What an object begins with; its properties and its end follow.
pub fn put_object_start(w: &mut Writer)
    requires { Room w.old 1 }
    ensures put { Put w.old object_start w.new }
    ensures value { w.new.at ≡ w.old.at + 1 }
{
    w.put_u8(0x03);
}

// An empty name and the end marker.
pub fn put_object_end(w: &mut Writer)
    requires { Room w.old 3 }
    ensures put { Put w.old object_end w.new }
    ensures value { w.new.at ≡ w.old.at + 3 }
{
    w.put_bytes(b"\x00\x00\x09");
}
