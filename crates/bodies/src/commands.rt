// Command bodies, type 20.
ghost use Rattle.std.specs.Prelude.{◌≡◌, ◌++◌, ◌+◌, ◌<◌, ◌≤◌, ◌^◌, cond, length};
ghost use Rattle.octets.specs.Compare.{ascii};
ghost use Rattle.octets.specs.Output.{Room, Put, Written};
ghost use Rattle.numbers.specs.Numbers.{number_of};
ghost use Rattle.amf0.specs.Value.{number as number_value, text, null, prop, nil};
ghost use Rattle.amf0.specs.Encode.{encode, encode_props, encode_values};
ghost use Rattle.messages.specs.declared.rtmp_message.UserControlEvent.TheVariants.{SetBufferLength};
ghost use Rattle.bodies.specs.Bodies.{command_values, is_given, url_bytes, tc_url_prop, connect_object, connect_body, create_stream_body, delete_stream_body, play_body, publish_name, publish_body, control_body};

use crate::controls::put_set_buffer_length;
use crate::properties::{put_number_property, put_text_property};
use messages::{PublishRequestType, StreamNumber, TransactionNumber};
use octets::{NoSpace, Writer};

// A command's name and number.
fn put_head(w: &mut Writer, name: &[u8], n: u32)
    requires name_short { length name.now < 2 ^ 16 }
    requires room { Room w.old (length name.now + 12) }
    ensures put { Put w.old (encode (text name.now) ++ encode (number_value (number_of n))) w.new }
    ensures value { w.new.at ≡ w.old.at + length name.now + 12 }
{
    amf0::put_text(w, name);
    amf0::put_number(w, numbers::number_of(n));
}

// A command as far as its arguments, with null for its object.
fn put_command(w: &mut Writer, name: &[u8], n: u32)
    requires name_short { length name.now < 2 ^ 16 }
    requires room { Room w.old (length name.now + 13) }
    ensures put { Put w.old (encode_values (command_values name.now n null nil)) w.new }
    ensures value { w.new.at ≡ w.old.at + length name.now + 13 }
{
    put_head(w, name, n);
    amf0::put_null(w);
}

// How many bytes tcUrl takes.
fn tc_url_len(url: Option<&[u8]>) -> usize
    requires { length (url_bytes url) < 2 ^ 16 }
    ensures value { result ≡ cond (is_given url.entry) (length (url_bytes url.entry) + 10) 0 }
    ensures upper_bound { result < 2 ^ 17 }
{
    match url {
        Some(url) => url.len() + 10,
        None => 0,
    }
}

// tcUrl where it is configured, and the object's end.
fn put_tc_url(w: &mut Writer, url: Option<&[u8]>)
    requires url_short { length (url_bytes url) < 2 ^ 16 }
    requires room { Room w.old (cond (is_given url) (length (url_bytes url) + 10) 0 + 3) }
    ensures { Put w.old (encode_props (tc_url_prop (is_given url.entry) (url_bytes url.entry))) w.new }
{
    if let Some(url) = url {
        put_text_property(w, b"tcUrl", url);
    }
    amf0::put_object_end(w);
}

// The object from `objectEncoding` on.
fn put_from_encoding(w: &mut Writer, url: Option<&[u8]>)
    requires url_short { length (url_bytes url) < 2 ^ 16 }
    requires room { Room w.old (28 + cond (is_given url) (length (url_bytes url) + 10) 0) }
    ensures { Put w.old (encode_props (prop (ascii "objectEncoding") (number_value (number_of 0)) (tc_url_prop (is_given url.entry) (url_bytes url.entry)))) w.new }
{
    put_number_property(w, b"objectEncoding", numbers::number_of(0));
    put_tc_url(w, url);
}

// The object of a connect.
fn put_connect_object(w: &mut Writer, app: &[u8], flash: &[u8], url: Option<&[u8]>)
    requires app_short { length app.now < 2 ^ 16 }
    requires flash_short { length flash.now < 2 ^ 16 }
    requires url_short { length (url_bytes url) < 2 ^ 16 }
    requires room { Room w.old (50 + length app.now + length flash.now + cond (is_given url) (length (url_bytes url) + 10) 0) }
    ensures { Put w.old (encode (connect_object app.now flash.now (is_given url.entry) (url_bytes url.entry))) w.new }
{
    amf0::put_object_start(w);
    put_text_property(w, b"app", app);
    put_text_property(w, b"flashVer", flash);
    put_from_encoding(w, url);
}

// tcUrl is sent where it is given.
pub fn write_connect(
    out: &mut [u8],
    number: TransactionNumber,
    app: &[u8],
    flash: &[u8],
    url: Option<&[u8]>,
) -> Result<usize, NoSpace>
    requires app_short { length app.now < 2 ^ 16 }
    requires flash_short { length flash.now < 2 ^ 16 }
    requires url_short { length (url_bytes url) < 2 ^ 16 }
    ensures { Written out.old (connect_body number.0 app.now flash.now (is_given url.entry) (url_bytes url.entry)) out.new result }
{
    if out.len() < 69 + app.len() + flash.len() + tc_url_len(url) {
        return Err(NoSpace);
    }
    let mut w = Writer::new(out);
    put_head(&mut w, b"connect", number.0);
    put_connect_object(&mut w, app, flash, url);
    Ok(w.position())
}

pub fn write_create_stream(out: &mut [u8], number: TransactionNumber) -> Result<usize, NoSpace>
    ensures { Written out.old (create_stream_body number.0) out.new result }
{
    if out.len() < 25 {
        return Err(NoSpace);
    }
    let mut w = Writer::new(out);
    put_command(&mut w, b"createStream", number.0);
    Ok(w.position())
}

pub fn write_delete_stream(out: &mut [u8], stream: StreamNumber) -> Result<usize, NoSpace>
    ensures { Written out.old (delete_stream_body stream.0) out.new result }
{
    if out.len() < 34 {
        return Err(NoSpace);
    }
    let mut w = Writer::new(out);
    put_command(&mut w, b"deleteStream", 0);
    amf0::put_number(&mut w, numbers::number_of(stream.0));
    Ok(w.position())
}

fn put_play(w: &mut Writer, key: &[u8])
    requires key_short { length key.now < 2 ^ 16 }
    requires room { Room w.old (length key.now + 20) }
    ensures { Put w.old (play_body key.now) w.new }
{
    put_command(w, b"play", 0);
    amf0::put_text(w, key);
}

// SetBufferLength of 10 bytes, and then play.
pub fn write_play(
    out: &mut [u8],
    stream: StreamNumber,
    ms: u32,
    key: &[u8],
) -> Result<usize, NoSpace>
    requires { length key.now < 2 ^ 16 }
    ensures { Written out.old (control_body (SetBufferLength stream ms) ++ play_body key.now) out.new result }
{
    if out.len() < 30 + key.len() {
        return Err(NoSpace);
    }
    let mut w = Writer::new(out);
    put_set_buffer_length(&mut w, stream, ms);
    put_play(&mut w, key);
    Ok(w.position())
}

// The name under which that kind is sent.
fn name_of(kind: PublishRequestType) -> &'static [u8]
    ensures name { result.now ≡ publish_name kind }
    ensures short { length result.now ≤ 6 }
{
    match kind {
        PublishRequestType::Live => b"live",
        PublishRequestType::Record => b"record",
        PublishRequestType::Append => b"append",
    }
}

pub fn write_publish(out: &mut [u8], key: &[u8], kind: PublishRequestType) -> Result<usize, NoSpace>
    requires { length key.now < 2 ^ 16 }
    ensures { Written out.old (publish_body key.now kind) out.new result }
{
    let name = name_of(kind);
    if out.len() < 26 + key.len() + name.len() {
        return Err(NoSpace);
    }
    let mut w = Writer::new(out);
    put_command(&mut w, b"publish", 0);
    amf0::put_text(&mut w, key);
    amf0::put_text(&mut w, name);
    Ok(w.position())
}
