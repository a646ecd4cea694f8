// The metadata of a stream: eleven fields, each present or absent.
ghost use Rattle.std.specs.Prelude.{◌≡◌, drop};
ghost use Rattle.amf0.specs.Decode.{object_of, value};
ghost use Rattle.amf0.specs.Lookup.{properties_at};
ghost use Rattle.messages.specs.Metadata.{field_index, field_places, kind_there, whole_field, rate_field, flag_field, text_field, metadata_at};

use amf0::{Kind, Malformed, Property};
use octets::Span;

// The encoder is a place in the bytes that the metadata goes with: of metadata that came in, the message's body.
#[derive(Clone, Copy, Debug, PartialEq)]
pub struct StreamMetadata {
    pub video_width: Option<u32>,
    pub video_height: Option<u32>,
    pub video_codec_id: Option<u32>,
    pub video_frame_rate: Option<f32>,
    pub video_bitrate_kbps: Option<u32>,
    pub audio_codec_id: Option<u32>,
    pub audio_bitrate_kbps: Option<u32>,
    pub audio_sample_rate: Option<u32>,
    pub audio_channels: Option<u32>,
    pub audio_is_stereo: Option<bool>,
    pub encoder: Option<Span>,
}

// The fields' names, in the order of sending.
const NAMES: [&[u8]; 11] = [
    b"width",
    b"height",
    b"videocodecid",
    b"framerate",
    b"videodatarate",
    b"audiocodecid",
    b"audiodatarate",
    b"audiosamplerate",
    b"audiochannels",
    b"stereo",
    b"encoder",
];

// Which field's name that is, in the order of sending; none for another name.
fn field_index(name: &[u8]) -> Option<usize>
    ensures { result ≡ field_index name.now }
{
    NAMES.iter().position(|field| octets::same(name, *field))
}

// For each field where the value of the last property of its name starts, among those at `at`.
fn places_in(body: &[u8], at: usize) -> Result<[Option<usize>; 11], Malformed>
    ensures { result ≡ field_places body.now (object_of (value 7) (drop at body.now)) }
{
    let mut places = [None; 11];
    let mut i = at;
    while let Some(Property { name, next }) = amf0::property_at(body, i)? {
        if let Some(k) = field_index(name.part_of(body)) {
            places[k] = Some(name.start + name.len);
        }
        i = next;
    }
    Ok(places)
}

// The same of the value at `at`: one that is no object has no field.
fn places_at(body: &[u8], at: usize) -> Result<[Option<usize>; 11], Malformed>
    ensures { result ≡ field_places body.now (properties_at (drop at body.now)) }
{
    match amf0::properties_at(body, at)? {
        Some(start) => places_in(body, start),
        None => Ok([None; 11]),
    }
}

// The kind of the value at such a place.
fn kind_there(body: &[u8], place: Option<usize>) -> Option<Kind>
    ensures { result ≡ kind_there body.now place }
{
    amf0::kind_at(body, place?).ok()
}

fn whole(kind: Option<Kind>) -> Option<u32>
    ensures { result ≡ whole_field kind }
{
    Some(numbers::hold(kind?.number()?))
}

fn rate(kind: Option<Kind>) -> Option<f32>
    ensures { result ≡ rate_field kind }
{
    Some(numbers::narrow(kind?.number()?))
}

fn flag(kind: Option<Kind>) -> Option<bool>
    ensures { result ≡ flag_field kind }
{
    match kind? {
        Kind::Boolean(b) => Some(b),
        _ => None,
    }
}

fn text(kind: Option<Kind>) -> Option<Span>
    ensures { result ≡ text_field kind }
{
    kind?.text()
}

// The metadata in the object at `at`.
pub fn read_metadata(body: &[u8], at: usize) -> StreamMetadata
    ensures { result ≡ metadata_at body.now (drop at body.now) }
{
    let places = places_at(body, at).unwrap_or([None; 11]);
    StreamMetadata {
        video_width: whole(kind_there(body, places[0])),
        video_height: whole(kind_there(body, places[1])),
        video_codec_id: whole(kind_there(body, places[2])),
        video_frame_rate: rate(kind_there(body, places[3])),
        video_bitrate_kbps: whole(kind_there(body, places[4])),
        audio_codec_id: whole(kind_there(body, places[5])),
        audio_bitrate_kbps: whole(kind_there(body, places[6])),
        audio_sample_rate: whole(kind_there(body, places[7])),
        audio_channels: whole(kind_there(body, places[8])),
        audio_is_stereo: flag(kind_there(body, places[9])),
        encoder: text(kind_there(body, places[10])),
    }
}
