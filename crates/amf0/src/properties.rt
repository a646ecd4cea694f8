// The properties of an object: of equal names the later holds.
ghost use Rattle.std.specs.Prelude.{◌≡◌, drop};
ghost use Rattle.amf0.specs.Decode.{name_of, object_of, value as value_of};
ghost use Rattle.amf0.specs.Lookup.{properties_at};
ghost use Rattle.amf0.specs.Names.{named_of, property_of};
ghost use Rattle.amf0.specs.Places.{start_at, found_of, text_of_property, stretch};

use super::kinds::kind_at;
use super::marker::{Marker, marker_at};
use super::names::{Named, name as name_at};
use super::read::{Malformed, value};
use octets::Span;

// A property: where its name lies, with its value right behind it, and the place after that.
#[derive(Clone, Copy, Debug, PartialEq, Eq)]
pub struct Property {
    pub name: Span,
    pub next: usize,
}

// Where the properties of the value at `at` start; none if it is no object.
pub fn properties_at(s: &[u8], at: usize) -> Result<Option<usize>, Malformed>
    ensures { result ≡ start_at s.now (drop at s.now) }
{
    let marker = marker_at(s, at)?;
    let b = at + 1;
    match marker {
        Marker::Object => Ok(Some(b)),
        Marker::EcmaArray => {
            octets::read_be32(s, b).ok_or(Malformed)?;
            Ok(Some(b + 4))
        }
        _ => Ok(None),
    }
}

// The property at `at`, of those of an object; none at the object's end.
pub fn property_at(s: &[u8], at: usize) -> Result<Option<Property>, Malformed>
    ensures { result ≡ property_of s.now (named_of s.now (name_of (drop at s.now))) }
{
    match name_at(s, at)? {
        Named::End(_) => Ok(None),
        Named::At(name) => {
            let next = value(s, name.start + name.len, 7)?;
            Ok(Some(Property { name, next }))
        }
    }
}

// Where the value of the last property `name` of those at `at` starts. By `property_at` it would take twice as long.
fn find_in(s: &[u8], at: usize, name: &[u8]) -> Result<Option<usize>, Malformed>
    ensures { result ≡ found_of s.now name.now (object_of (value_of 7) (drop at s.now)) }
{
    let mut i = at;
    let mut best = None;
    loop {
        match name_at(s, i)? {
            Named::End(_) => return Ok(best),
            Named::At(Span { start, len }) => {
                let e = start + len;
                i = value(s, e, 7)?;
                if octets::part_is(s, start, len, name) {
                    best = Some(e);
                }
            }
        }
    }
}

// Where the value of the last property `name` of the value at `at` starts; none if it has none of that name, or is no object.
pub fn find(s: &[u8], at: usize, name: &[u8]) -> Result<Option<usize>, Malformed>
    ensures { result ≡ found_of s.now name.now (properties_at (drop at s.now)) }
{
    match properties_at(s, at)? {
        Some(start) => find_in(s, start, name),
        None => Ok(None),
    }
}

// The place of the text that the last property `name` of the value at `at` holds.
pub fn text_at(s: &[u8], at: usize, name: &[u8]) -> Option<Span>
    ensures { result ≡ text_of_property s.now name.now (properties_at (drop at s.now)) }
{
    let e = find(s, at, name).ok()??;
    let kind = kind_at(s, e).ok()?;
    kind.text()
}

// The bytes of that text, as a part of s; none where there is no such text.
pub fn text_property<'a>(s: &'a [u8], at: usize, name: &[u8]) -> &'a [u8]
    ensures { result.now ≡ stretch s.now (text_of_property s.now name.now (properties_at (drop at s.now))) }
{
    match text_at(s, at, name) {
        Some(place) => place.part_of(s),
        None => &s[..0],
    }
}
