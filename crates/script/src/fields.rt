// A line's fields, taken one after the other.
ghost use Rattle.std.specs.Prelude.{◌≡◌, ◌+◌, ◌-◌, ◌≤◌, Ok, Err, IfOk, MatchResult, length, drop};
ghost use Rattle.script.specs.Fields.{until, bare, fields_at, fields_after, left};
ghost use Rattle.script.specs.Lines.{rest, ended, last, word_of, text_of, number_of, hex_of, flag_of};

use crate::reasons::Why;
use crate::{decimal, hex, named};
use octets::Span;

// The fields of a line that are left: the next starts at `next`, and none is left where that is past the line's end.
#[derive(Clone, Copy, Debug, PartialEq, Eq)]
pub(crate) struct Fields<'a> {
    pub(crate) line: &'a [u8],
    pub(crate) next: usize,
}

impl<'a> Fields<'a> {
    pub(crate) fn new(line: &'a [u8]) -> Fields<'a>
        ensures { left result ≡ fields_at line.now 0 }
    {
        Fields { line, next: 0 }
    }

    // Those after the field that ends at `end`.
    #[tactic(auto, using(crate::proofs::FieldLaws::fields_min))]
    pub(crate) fn after(line: &'a [u8], end: usize) -> Fields<'a>
        ensures line { result.line.now ≡ line.now }
        ensures left { left result ≡ fields_after line.now end }
    {
        let next = end.min(line.len()) + 1;
        Fields { line, next }
    }

    // The next field.
    pub(crate) fn word(&mut self) -> Result<&'a [u8], Why>
        ensures word { MatchResult result (λ w. word_of (left self.old) ≡ Ok w.now) (λ e. word_of (left self.old) ≡ Err e) }
        ensures rest { left self.new ≡ rest (left self.old) }
        ensures next { IfOk result (λ w. self.new.next ≡ self.old.next + length w.now + 1) }
        ensures within { IfOk result (λ w. self.new.next ≤ length self.old.line.now + 1) }
        ensures line { self.new.line.now ≡ self.old.line.now }
    {
        let Some(rest) = self.line.get(self.next..) else {
            return Err(Why::Missing);
        };
        let len = until(rest, b'\t');
        self.next += len + 1;
        Ok(&rest[..len])
    }

    // The place of a text.
    #[tactic(auto, using(crate::proofs::ReadLaws::text_err, crate::proofs::ReadLaws::text_is))]
    pub(crate) fn text(&mut self) -> Result<Span, Why>
        ensures value { result ≡ text_of (left self.old) }
        ensures rest { left self.new ≡ rest (left self.old) }
    {
        let start = self.next;
        let len = self.word()?.len();
        Ok(Span { start, len })
    }

    #[tactic(auto, unfolding(crate::specs::Lines::number_of))]
    pub(crate) fn number(&mut self) -> Result<u32, Why>
        ensures value { result ≡ number_of (left self.old) }
        ensures rest { left self.new ≡ rest (left self.old) }
    {
        let word = self.word()?;
        decimal::number(word).ok_or(Why::Number)
    }

    // The place of hexadecimal digits.
    #[tactic(auto, using(crate::proofs::ReadLaws::text_is), unfolding(crate::specs::Lines::hex_of))]
    pub(crate) fn hex(&mut self) -> Result<Span, Why>
        ensures value { result ≡ hex_of (left self.old) }
        ensures rest { left self.new ≡ rest (left self.old) }
    {
        let start = self.next;
        let word = self.word()?;
        if !hex::is_hex(word) {
            return Err(Why::Hex);
        }
        let len = word.len();
        Ok(Span { start, len })
    }

    #[tactic(auto, unfolding(crate::specs::Lines::flag_of))]
    pub(crate) fn flag(&mut self) -> Result<bool, Why>
        ensures value { result ≡ flag_of (left self.old) }
        ensures rest { left self.new ≡ rest (left self.old) }
    {
        let n = self.number()?;
        named::flag(n).ok_or(Why::Flag)
    }

    // A number, as the last field.
    pub(crate) fn last_number(&mut self) -> Result<u32, Why>
        ensures { result ≡ last number_of (left self.old) }
    {
        let n = self.number()?;
        self.end()?;
        Ok(n)
    }

    // The place of a text, as the last field.
    pub(crate) fn last_text(&mut self) -> Result<Span, Why>
        ensures { result ≡ last text_of (left self.old) }
    {
        let at = self.text()?;
        self.end()?;
        Ok(at)
    }

    // That no field is left.
    #[tactic(auto, using(crate::proofs::ReadLaws::one_more, crate::proofs::ReadLaws::at_end))]
    pub(crate) fn end(&self) -> Result<(), Why>
        ensures { result ≡ ended (left self.now) }
    {
        if self.next <= self.line.len() {
            return Err(Why::Extra);
        }
        Ok(())
    }
}

// How many bytes stand before the first b.
fn until(s: &[u8], b: u8) -> usize
    ensures value { result ≡ until b s.now }
    ensures within { result ≤ length s.now }
{
    s.iter().position(|x| *x == b).unwrap_or(s.len())
}

// Where the first b from `at` on stands, or the end.
#[tactic(auto, using(crate::proofs::FieldLaws::until_end))]
pub fn find(s: &[u8], at: usize, b: u8) -> usize
    ensures value { result ≡ at + until b (drop at s.now) }
    ensures within { (at ≤ result) × (result ≤ at + (length s.now - at)) }
{
    let Some(rest) = s.get(at..) else {
        return at;
    };
    at + until(rest, b)
}

// The line without the carriage return at its end.
pub(crate) fn bare(s: &[u8]) -> &[u8]
    ensures { result.now ≡ bare s.now }
{
    s.strip_suffix(b"\r").unwrap_or(s)
}
