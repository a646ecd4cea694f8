// A reader carries a body and its position in it. The work is done by `value_at`, on a slice and a number; `read_value` only calls it and moves the position.
#![tactic(auto)]

ghost use Rattle.std.specs.Prelude.{◌≡◌, drop};
ghost use Rattle.amf0.specs.Decode.{top_value};
ghost use Rattle.amf0.specs.Places.{kind_at, end_of};
ghost use Rattle.reader.specs.Read.{taken, kind_taken, next_taken};

use amf0::{Kind, Malformed};

#[derive(Clone, Copy, Debug, PartialEq, Eq)]
pub struct Reader<'a> {
    pub src: &'a [u8],
    pub at: usize,
}

// What was read, and the place after it.
#[derive(Clone, Copy, Debug, PartialEq, Eq)]
pub struct Taken {
    pub kind: Kind,
    pub next: usize,
}

// The place after the value at `at`, which is of that kind: a text isn't read again to pass it over.
fn after(s: &[u8], at: usize, kind: Kind) -> Result<usize, Malformed>
    requires { Ok kind ≡ kind_at s.now (drop at s.now) }
    ensures { result ≡ end_of s.now (top_value (drop at s.now)) }
{
    match kind {
        Kind::Number(_) => Ok(at + 9),
        Kind::Boolean(_) => Ok(at + 2),
        Kind::Text(place) => Ok(place.start + place.len),
        Kind::Null | Kind::Undefined => Ok(at + 1),
        Kind::Object | Kind::Array => amf0::skip(s, at),
    }
}

// The value at `at`.
pub fn value_at(s: &[u8], at: usize) -> Result<Taken, Malformed>
    ensures { result ≡ taken s.now at }
{
    let kind = amf0::kind_at(s, at)?;
    let next = after(s, at, kind)?;
    Ok(Taken { kind, next })
}

impl<'a> Reader<'a> {
    pub fn new(src: &'a [u8], at: usize) -> Reader<'a>
        ensures { (result.src ≡ src.entry) × (result.at ≡ at) }
    {
        Reader { src, at }
    }

    // The value at the position, which moves past it, and stays where there is none.
    pub fn read_value(&mut self) -> Result<Kind, Malformed>
        ensures kind { result ≡ kind_taken (taken self.old.src.now self.old.at) }
        ensures src { self.new.src ≡ self.old.src }
        ensures at { self.new.at ≡ next_taken self.old.at (taken self.old.src.now self.old.at) }
    {
        let Taken { kind, next } = value_at(self.src, self.at)?;
        self.at = next;
        Ok(kind)
    }
}
