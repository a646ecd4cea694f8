// AMF0: what stands at the start of a body.
use crate::shown::Shown;
use amf0::Kind;
use case_lines::{Digits, Hex, OrWord};
use octets::Span;
use std::io::Write;
use std::{fmt, io};

impl fmt::Display for Shown<Kind> {
    fn fmt<W: fmt::Write>(&self, f: &mut fmt::Formatter<W>) -> fmt::Result {
        match self.0 {
            Kind::Number(bits) => write!(f, "number {}", Digits(bits, 16)),
            Kind::Boolean(b) => write!(f, "boolean {}", u8::from(b)),
            Kind::Text(place) => write!(f, "text {}", Shown(place)),
            Kind::Object => f.write_str("object"),
            Kind::Null => f.write_str("null"),
            Kind::Undefined => f.write_str("undefined"),
            Kind::Array => f.write_str("array"),
        }
    }
}

impl fmt::Display for Shown<Span> {
    fn fmt<W: fmt::Write>(&self, f: &mut fmt::Formatter<W>) -> fmt::Result {
        write!(f, "{} {}", self.0.start, self.0.len)
    }
}

// Where the value of a property stands, if there is one.
#[derive(Debug, PartialEq, Eq, Clone, Copy)]
struct At(Option<usize>);

impl fmt::Display for At {
    fn fmt<W: fmt::Write>(&self, f: &mut fmt::Formatter<W>) -> fmt::Result {
        match self.0 {
            Some(n) => write!(f, "at {n}"),
            None => f.write_str("absent"),
        }
    }
}

// How many values there are; where the first ends; its kind; where the value of its property `code` stands; the place of that text, and
// its bytes.
pub fn case<W: Write>(to: &mut W, given: &[u8]) -> io::Result<()> {
    write!(
        to,
        "{}\t{}\t{}\t{}\t{}\t{}",
        OrWord(amf0::count_values(given, 0).ok(), "bad"),
        OrWord(amf0::skip(given, 0).ok(), "bad"),
        OrWord(amf0::kind_at(given, 0).ok().map(Shown), "bad"),
        OrWord(amf0::find(given, 0, b"code").ok().map(At), "bad"),
        OrWord(amf0::text_at(given, 0, b"code").map(Shown), "absent"),
        Hex(amf0::text_property(given, 0, b"code"))
    )
}
