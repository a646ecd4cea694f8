// What stands at a place: the kind of a value and, of a number, a boolean and a text, what it holds.
ghost use Rattle.std.specs.Prelude.{◌≡◌, drop};
ghost use Rattle.amf0.specs.Places.{kind_at, kind_after, only_text, only_number};

use super::marker::{Marker, marker_at};
use super::names::text;
use super::read::{Malformed, byte};
use octets::Span;

#[derive(Clone, Copy, Debug, PartialEq, Eq)]
pub enum Kind {
    // a double's bit pattern
    Number(u64),
    Boolean(bool),
    // where the text's bytes lie
    Text(Span),
    // an object or an ECMA array
    Object,
    Null,
    Undefined,
    // a strict array
    Array,
}

impl Kind {
    // The place of the text, if it is one.
    pub fn text(self) -> Option<Span>
        ensures { result ≡ only_text self }
    {
        match self {
            Kind::Text(place) => Some(place),
            _ => None,
        }
    }

    // The Number's pattern, if it is one.
    pub fn number(self) -> Option<u64>
        ensures { result ≡ only_number self }
    {
        match self {
            Kind::Number(bits) => Some(bits),
            _ => None,
        }
    }
}

fn number(s: &[u8], at: usize) -> Result<Kind, Malformed>
    ensures { result ≡ kind_after s.now Marker.Number (drop at s.now) }
{
    Ok(Kind::Number(octets::read_be64(s, at).ok_or(Malformed)?))
}

fn boolean(s: &[u8], at: usize) -> Result<Kind, Malformed>
    ensures { result ≡ kind_after s.now Marker.Boolean (drop at s.now) }
{
    Ok(Kind::Boolean(byte(s, at)? != 0))
}

fn text_kind(s: &[u8], at: usize) -> Result<Kind, Malformed>
    ensures { result ≡ kind_after s.now Marker.Text (drop at s.now) }
{
    Ok(Kind::Text(text(s, at)?))
}

// The kind of the value at `at`. It looks at no more than the marker and a number's, a boolean's or a text's own bytes.
pub fn kind_at(s: &[u8], at: usize) -> Result<Kind, Malformed>
    ensures { result ≡ kind_at s.now (drop at s.now) }
{
    let marker = marker_at(s, at)?;
    let b = at + 1;
    match marker {
        Marker::Number => number(s, b),
        Marker::Boolean => boolean(s, b),
        Marker::Text => text_kind(s, b),
        Marker::Object | Marker::EcmaArray => Ok(Kind::Object),
        Marker::Null => Ok(Kind::Null),
        Marker::Undefined => Ok(Kind::Undefined),
        Marker::StrictArray => Ok(Kind::Array),
    }
}
