// A field NAME=VALUE of metadata: what its value has to be, and whether it is that.
ghost use Rattle.std.specs.Prelude.{◌≡◌, Some, None, MatchOption};
ghost use Rattle.script.specs.Lines.{flag};
ghost use Rattle.script.specs.Metadata.{field_kind, rate_of, check_field};

use crate::reasons::Why;
use crate::{decimal, hex};

// What a field's value has to be. An encoder may be any text.
#[derive(Clone, Copy, Debug, PartialEq, Eq)]
pub(crate) enum FieldKind {
    Whole,
    Rate,
    Flag,
    Text,
}

// The names, each with its equals sign.
const KINDS: [(&[u8], FieldKind); 11] = [
    (b"width=", FieldKind::Whole),
    (b"height=", FieldKind::Whole),
    (b"videocodecid=", FieldKind::Whole),
    (b"framerate=", FieldKind::Rate),
    (b"videodatarate=", FieldKind::Whole),
    (b"audiocodecid=", FieldKind::Whole),
    (b"audiodatarate=", FieldKind::Whole),
    (b"audiosamplerate=", FieldKind::Whole),
    (b"audiochannels=", FieldKind::Whole),
    (b"stereo=", FieldKind::Flag),
    (b"encoder=", FieldKind::Text),
];

// What the value of the field s has to be, and the value.
fn field_kind(s: &[u8]) -> Option<(FieldKind, &[u8])>
    ensures { MatchOption result (field_kind s.now ≡ None) (λ f. field_kind s.now ≡ Some (f.0, f.1.now)) }
{
    let (name, kind) = KINDS.iter().find(|(name, _)| s.starts_with(*name))?;
    Some((*kind, &s[name.len()..]))
}

// The single whose pattern the 8 digits write.
#[tactic(auto, using(crate::proofs::MetadataLaws::rate_length, crate::proofs::MetadataLaws::rate_refused, crate::proofs::MetadataLaws::rate_read))]
pub(crate) fn rate_of(d: &[u8]) -> Option<f32>
    ensures { result ≡ rate_of d.now }
{
    if d.len() != 8 {
        return None;
    }
    let mut pattern = [0u8; 4];
    hex::unhex(d, &mut pattern).ok()?;
    // through the wider number, so that of the patterns of a NaN one alone is held
    let bits = numbers::widen_bits(u32::from_be_bytes(pattern));
    Some(numbers::narrow(bits))
}

// 0 or 1.
pub(crate) fn flag(n: u32) -> Option<bool>
    ensures { result ≡ flag n }
{
    match n {
        0 => Some(false),
        1 => Some(true),
        _ => None,
    }
}

pub(crate) fn check_field(s: &[u8]) -> Result<(), Why>
    ensures { result ≡ check_field s.now }
{
    let (kind, value) = field_kind(s).ok_or(Why::Name)?;
    match kind {
        FieldKind::Whole => {
            decimal::number(value).ok_or(Why::Number)?;
        }
        FieldKind::Rate => {
            rate_of(value).ok_or(Why::Hex)?;
        }
        FieldKind::Flag => {
            decimal::number(value).and_then(flag).ok_or(Why::Flag)?;
        }
        FieldKind::Text => {}
    }
    Ok(())
}
