// The metadata message, type 18.
ghost use Rattle.std.specs.Prelude.{◌≡◌, ℕ, ◌++◌, ◌+◌, ◌<◌, ◌≤◌, ◌^◌, length};
ghost use Rattle.std.specs.Option.{option_map};
ghost use Rattle.octets.specs.Compare.{ascii};
ghost use Rattle.octets.specs.Output.{Room, Put, Written};
ghost use Rattle.amf0.specs.Value.{Value, boolean, text as a_text};
ghost use Rattle.amf0.specs.Encode.{text_bytes, encode, object_start, object_end};
ghost use Rattle.amf0.specs.Places.{stretch};
ghost use Rattle.bodies.specs.MetadataBody.{metadata_body};
ghost use Rattle.bodies.specs.Fields.{whole_value, rate_value, text_value, video_fields, rate_fields, last_fields, field_bytes, fields_bytes};
ghost use Rattle.bodies.specs.Sizes.{size_if, video_size, rate_size, last_size};

use crate::properties::{put_boolean_property, put_number_property, put_text_property};
use messages::StreamMetadata;
use octets::{NoSpace, Span, Writer};

// How many bytes a field takes that takes n where it is present.
fn len_if<T: Copy>(v: Option<T>, n: usize) -> usize
    ensures { (result ≡ size_if v n) × (result ≤ n) }
{
    match v {
        Some(_) => n,
        None => 0,
    }
}

// How many bytes the encoder takes, whose text lies in `text`.
fn encoder_len(v: Option<Span>, text: &[u8]) -> usize
    requires { length (stretch text.now v) < 2 ^ 16 }
    ensures { (result ≡ size_if v (length (stretch text.now v) + 12)) × (result < 2 ^ 17) }
{
    match v {
        Some(found) => found.part_of(text).len() + 12,
        None => 0,
    }
}

// What a field may hold, and how a property with that value is written.
trait FieldValue: Copy {
    // The AMF0 value that it is written as.
    ghost value: { Self → Value };

    // How many bytes the property takes beside those of its name.
    ghost size: { ℕ };

    fn put_property(self, w: &mut Writer, name: &[u8])
        requires name_short { length name.now < 2 ^ 16 }
        requires room { Room w.old (length name.now + size) }
        ensures put { Put w.old (text_bytes name.now ++ encode (value self)) w.new }
        ensures at { w.new.at ≡ w.old.at + length name.now + size };
}

impl FieldValue for u32 {
    ghost value = { whole_value };

    ghost size = { 11 };

    fn put_property(self, w: &mut Writer, name: &[u8]) {
        put_number_property(w, name, numbers::number_of(self));
    }
}

impl FieldValue for f32 {
    ghost value = { rate_value };

    ghost size = { 11 };

    fn put_property(self, w: &mut Writer, name: &[u8]) {
        put_number_property(w, name, numbers::widen(self));
    }
}

impl FieldValue for bool {
    ghost value = { boolean };

    ghost size = { 4 };

    fn put_property(self, w: &mut Writer, name: &[u8]) {
        put_boolean_property(w, name, self);
    }
}

// The property, where the field is present.
fn put_field<V: FieldValue>(w: &mut Writer, name: &[u8], v: Option<V>)
    requires name_short { length name.now < 2 ^ 16 }
    requires room { Room w.old (size_if v (length name.now + V.size)) }
    ensures put { Put w.old (field_bytes name.now (option_map V.value v)) w.new }
    ensures value { w.new.at ≡ w.old.at + size_if v (length name.now + V.size) }
{
    if let Some(x) = v {
        x.put_property(w, name);
    }
}

// The encoder's text lies in `text`, and how many bytes it takes goes by it, so it is no FieldValue.
fn put_encoder(w: &mut Writer, v: Option<Span>, text: &[u8])
    requires text_short { length (stretch text.now v) < 2 ^ 16 }
    requires room { Room w.old (size_if v (length (stretch text.now v) + 12)) }
    ensures put { Put w.old (field_bytes (ascii "encoder") (option_map (text_value text.now) v)) w.new }
    ensures value { w.new.at ≡ w.old.at + size_if v (length (stretch text.now v) + 12) }
{
    if let Some(found) = v {
        put_text_property(w, b"encoder", found.part_of(text));
    }
}

// The fields in sending order, in three groups.
fn video_len(m: StreamMetadata) -> usize
    ensures { (result ≡ video_size m) × (result ≤ 76) }
{
    len_if(m.video_width, 16)
        + len_if(m.video_height, 17)
        + len_if(m.video_codec_id, 23)
        + len_if(m.video_frame_rate, 20)
}

fn rates_len(m: StreamMetadata) -> usize
    ensures { (result ≡ rate_size m) × (result ≤ 97) }
{
    len_if(m.video_bitrate_kbps, 24)
        + len_if(m.audio_codec_id, 23)
        + len_if(m.audio_bitrate_kbps, 24)
        + len_if(m.audio_sample_rate, 26)
}

fn last_len(m: StreamMetadata, text: &[u8]) -> usize
    requires { length (stretch text.now m.encoder) < 2 ^ 16 }
    ensures { (result ≡ last_size text.now m) × (result < 2 ^ 18) }
{
    len_if(m.audio_channels, 24) + len_if(m.audio_is_stereo, 10) + encoder_len(m.encoder, text) + 3
}

fn put_video(w: &mut Writer, m: StreamMetadata)
    requires { Room w.old (video_size m) }
    ensures put { Put w.old (fields_bytes (video_fields m)) w.new }
    ensures value { w.new.at ≡ w.old.at + video_size m }
{
    put_field(w, b"width", m.video_width);
    put_field(w, b"height", m.video_height);
    put_field(w, b"videocodecid", m.video_codec_id);
    put_field(w, b"framerate", m.video_frame_rate);
}

fn put_rates(w: &mut Writer, m: StreamMetadata)
    requires { Room w.old (rate_size m) }
    ensures put { Put w.old (fields_bytes (rate_fields m)) w.new }
    ensures value { w.new.at ≡ w.old.at + rate_size m }
{
    put_field(w, b"videodatarate", m.video_bitrate_kbps);
    put_field(w, b"audiocodecid", m.audio_codec_id);
    put_field(w, b"audiodatarate", m.audio_bitrate_kbps);
    put_field(w, b"audiosamplerate", m.audio_sample_rate);
}

// The last fields, and the object's end.
fn put_last(w: &mut Writer, m: StreamMetadata, text: &[u8])
    requires text_short { length (stretch text.now m.encoder) < 2 ^ 16 }
    requires room { Room w.old (last_size text.now m) }
    ensures { Put w.old (fields_bytes (last_fields text.now m) ++ object_end) w.new }
{
    put_field(w, b"audiochannels", m.audio_channels);
    put_field(w, b"stereo", m.audio_is_stereo);
    put_encoder(w, m.encoder, text);
    amf0::put_object_end(w);
}

// The two texts, and what the object begins with.
fn put_names(w: &mut Writer)
    requires { Room w.old 30 }
    ensures put { Put w.old (encode (a_text (ascii "@setDataFrame")) ++ (encode (a_text (ascii "onMetaData")) ++ object_start)) w.new }
    ensures value { w.new.at ≡ w.old.at + 30 }
{
    amf0::put_text(w, b"@setDataFrame");
    amf0::put_text(w, b"onMetaData");
    amf0::put_object_start(w);
}

// The encoder's text lies in `text`.
pub fn write_metadata(out: &mut [u8], m: StreamMetadata, text: &[u8]) -> Result<usize, NoSpace>
    requires { length (stretch text.now m.encoder) < 2 ^ 16 }
    ensures { Written out.old (metadata_body text.now m) out.new result }
{
    if out.len() < 30 + video_len(m) + rates_len(m) + last_len(m, text) {
        return Err(NoSpace);
    }
    let mut w = Writer::new(out);
    put_names(&mut w);
    put_video(&mut w, m);
    put_rates(&mut w, m);
    put_last(&mut w, m, text);
    Ok(w.position())
}
