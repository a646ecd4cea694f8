// Values passed over: where a value ends, or that it is malformed.
ghost use Rattle.std.specs.Prelude.{◌≡◌, ◌≤◌, length, drop};
ghost use Rattle.octets.specs.BigEndian.{uint};
ghost use Rattle.amf0.specs.Decode.{text_of, object_of, values, value as value_of, top_value, all_values};
ghost use Rattle.amf0.specs.Places.{outcome, end_of, count_of};

use super::marker::{Marker, marker_at};
use super::names::{Named, name, text};
use octets::Span;

// Bytes that are no value, or end before it does.
#[derive(Clone, Copy, Debug, PartialEq, Eq)]
pub struct Malformed;

// The byte at `at`.
pub fn byte(s: &[u8], at: usize) -> Result<u8, Malformed>
    ensures { result ≡ outcome (uint 1 (drop at s.now)) }
{
    s.get(at).copied().ok_or(Malformed)
}

// The place after n bytes.
fn bytes(s: &[u8], at: usize, n: usize) -> Result<usize, Malformed>
    requires { at ≤ length s.now }
    ensures { result ≡ end_of s.now (uint n (drop at s.now)) }
{
    if s.len() - at < n {
        return Err(Malformed);
    }
    Ok(at + n)
}

// The place after a text.
fn text_end(s: &[u8], at: usize) -> Result<usize, Malformed>
    ensures { result ≡ end_of s.now (text_of (drop at s.now)) }
{
    let place = text(s, at)?;
    Ok(place.start + place.len)
}

// The place after the value at `at`, of at most `left` levels.
#[cycle(array_object_value)]
pub fn value(s: &[u8], at: usize, left: usize) -> Result<usize, Malformed>
    ensures { result ≡ end_of s.now (value_of left (drop at s.now)) }
{
    if left == 0 {
        return Err(Malformed);
    }
    let marker = marker_at(s, at)?;
    let b = at + 1;
    match marker {
        Marker::Number => bytes(s, b, 8),
        Marker::Boolean => bytes(s, b, 1),
        Marker::Text => text_end(s, b),
        Marker::Object => object(s, b, left - 1),
        Marker::Null | Marker::Undefined => Ok(b),
        Marker::EcmaArray => {
            octets::read_be32(s, b).ok_or(Malformed)?;
            object(s, b + 4, left - 1)
        }
        Marker::StrictArray => {
            let n = octets::read_be32(s, b).ok_or(Malformed)?;
            array(s, b + 4, n, left - 1)
        }
    }
}

// The place after the properties at `at`, with values of at most `left` levels.
#[cycle(array_object_value)]
fn object(s: &[u8], at: usize, left: usize) -> Result<usize, Malformed>
    ensures { result ≡ end_of s.now (object_of (value_of left) (drop at s.now)) }
{
    let mut i = at;
    loop {
        match name(s, i)? {
            Named::End(e) => return Ok(e),
            Named::At(Span { start, len }) => i = value(s, start + len, left)?,
        }
    }
}

// The place after n values at `at`, of at most `left` levels. Each takes a byte at least, so a count too large ends at the end of s.
// Inlined, since by a call of its own an array in an array takes half as long again.
#[cycle(array_object_value)]
#[inline(always)]
fn array(s: &[u8], at: usize, n: u32, left: usize) -> Result<usize, Malformed>
    requires { at ≤ length s.now }
    ensures { result ≡ end_of s.now (values (value_of left) n (drop at s.now)) }
{
    let mut i = at;
    for _ in 0..n {
        i = value(s, i, left)?;
    }
    Ok(i)
}

// The place after the value at `at`.
pub fn skip(s: &[u8], at: usize) -> Result<usize, Malformed>
    ensures { result ≡ end_of s.now (top_value (drop at s.now)) }
{
    value(s, at, 8)
}

// How many values stand from `at` to the end of s.
pub fn count_values(s: &[u8], at: usize) -> Result<usize, Malformed>
    ensures { result ≡ count_of (all_values (drop at s.now)) }
{
    let mut i = at;
    let mut n = 0;
    while i < s.len() {
        i = skip(s, i)?;
        n += 1;
    }
    Ok(n)
}
