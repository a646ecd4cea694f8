// Texts, and what stands before the value of a property.
ghost use Rattle.std.specs.Prelude.{◌≡◌, drop};
ghost use Rattle.amf0.specs.Decode.{text_of, name_of};
ghost use Rattle.amf0.specs.Names.{named_of};
ghost use Rattle.amf0.specs.Places.{text_place};

use super::read::{Malformed, byte};
use octets::Span;

// The object's end, with the place after it, or where a name lies.
#[derive(Clone, Copy, Debug, PartialEq, Eq)]
pub enum Named {
    End(usize),
    At(Span),
}

// Where the bytes of the text at `at` lie: 2 bytes of length stand before them, and they are UTF-8.
pub fn text(s: &[u8], at: usize) -> Result<Span, Malformed>
    ensures { result ≡ text_place s.now (text_of (drop at s.now)) }
{
    let n = octets::read_be16(s, at).ok_or(Malformed)?;
    let start = at + 2;
    let len = n as usize;
    if s.len() - start < len {
        return Err(Malformed);
    }
    if octets::is_utf8(&s[start..start + len]) {
        return Ok(Span { start, len });
    }
    Err(Malformed)
}

// An empty name stands only before the end marker.
pub fn name(s: &[u8], at: usize) -> Result<Named, Malformed>
    ensures { result ≡ named_of s.now (name_of (drop at s.now)) }
{
    let place = text(s, at)?;
    if 0 < place.len {
        return Ok(Named::At(place));
    }
    if byte(s, place.start)? == 0x09 {
        return Ok(Named::End(place.start + 1));
    }
    Err(Malformed)
}
