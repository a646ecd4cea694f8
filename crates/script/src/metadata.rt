// The fields of metadata in a line, read into the record. The encoder's place is one in the line.
ghost use Rattle.std.specs.Prelude.{◌≡◌, ◌+◌, ◌≤◌, None, length};
ghost use Rattle.script.specs.Fields.{left};
ghost use Rattle.script.specs.Metadata.{check_fields, value_in, last_value, whole_at, rate_at, flag_at, metadata_of, metadata_line};

use crate::fields::{Fields, bare};
use crate::reasons::Why;
use crate::{decimal, named};
use messages::StreamMetadata;
use octets::Span;

// What is wrong with the fields.
fn check_fields(mut fields: Fields) -> Result<(), Why>
    ensures { result ≡ check_fields (left fields.entry) }
{
    while let Ok(word) = fields.word() {
        named::check_field(word)?;
    }
    Ok(())
}

// The place of the value in a field that starts at `start`, where it begins with the name.
#[tactic(auto, using(crate::proofs::MetadataLaws::begins_is))]
fn value_in(field: &[u8], start: usize, name: &[u8]) -> Option<Span>
    requires { start + length field.now ≤ 9223372036854775807 }
    ensures { result ≡ value_in start field.now name.now }
{
    let len = field.strip_prefix(name)?.len();
    let start = start + name.len();
    Some(Span { start, len })
}

// Of equal names the later holds.
#[tactic(auto, using(crate::proofs::MetadataLaws::last_more, crate::proofs::MetadataLaws::last_end))]
fn last_value(mut fields: Fields, name: &[u8]) -> Option<Span>
    ensures { result ≡ last_value name.now (left fields.entry) None }
{
    let mut best = None;
    loop {
        let start = fields.next;
        let Ok(field) = fields.word() else {
            return best;
        };
        best = value_in(field, start, name).or(best);
    }
}

// The value of that name, if it has one that can be read. With one function that is given the reader, each of the ten calls below would name its reader too.
fn whole(fields: Fields, name: &[u8]) -> Option<u32>
    ensures { result ≡ whole_at fields.entry.line.now (last_value name.now (left fields.entry) None) }
{
    decimal::number(last_value(fields, name)?.part_of(fields.line))
}

fn rate(fields: Fields, name: &[u8]) -> Option<f32>
    ensures { result ≡ rate_at fields.entry.line.now (last_value name.now (left fields.entry) None) }
{
    named::rate_of(last_value(fields, name)?.part_of(fields.line))
}

fn flag(fields: Fields, name: &[u8]) -> Option<bool>
    ensures { result ≡ flag_at fields.entry.line.now (last_value name.now (left fields.entry) None) }
{
    named::flag(whole(fields, name)?)
}

fn values(fields: Fields) -> StreamMetadata
    ensures { result ≡ metadata_of fields.entry.line.now (left fields.entry) }
{
    StreamMetadata {
        video_width: whole(fields, b"width="),
        video_height: whole(fields, b"height="),
        video_codec_id: whole(fields, b"videocodecid="),
        video_frame_rate: rate(fields, b"framerate="),
        video_bitrate_kbps: whole(fields, b"videodatarate="),
        audio_codec_id: whole(fields, b"audiocodecid="),
        audio_bitrate_kbps: whole(fields, b"audiodatarate="),
        audio_sample_rate: whole(fields, b"audiosamplerate="),
        audio_channels: whole(fields, b"audiochannels="),
        audio_is_stereo: flag(fields, b"stereo="),
        encoder: last_value(fields, b"encoder="),
    }
}

// The fields of the line s, without its newline, after the place that its Line names.
pub fn read_metadata(s: &[u8], to: usize) -> Result<StreamMetadata, Why>
    ensures { result ≡ metadata_line s.now to }
{
    let fields = Fields::after(bare(s), to);
    check_fields(fields)?;
    Ok(values(fields))
}
