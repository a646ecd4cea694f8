// The text of a line, which is put together a part at a time.
ghost use Rattle.std.specs.Prelude.{◌≡◌, ◌+◌, ◌≤◌, [], ◌∷◌, ◌++◌, length};
ghost use Rattle.script_results.specs.Decimal.{shown};
ghost use Rattle.script_results.specs.Results.{field_text};

use std::marker::Model;

// Clauses see its bytes, of which there are at most 128. They lie in an array, since no heap is used.
#[derive(Drop)]
pub struct Line {
    bytes: [u8; 128],
    len: usize,
}

impl Model for Line {
    ghost use Rattle.std.specs.Prelude.{ℕ, ◌≤◌, List, take};

    ghost Value = { List ℕ };

    ghost view = { λ l. take l.len l.bytes };

    ghost invariant = { λ l. l.len ≤ 128 };
}

impl Line {
    pub(crate) fn new() -> Line
        ensures { result ≡ [] }
    {
        Line {
            bytes: [0; 128],
            len: 0,
        }
    }

    pub(crate) fn put_bytes(&mut self, src: &[u8])
        requires { length self.old + length src.now ≤ 128 }
        ensures { self.new ≡ self.old ++ src.now }
    {
        let end = self.len + src.len();
        self.bytes[self.len..end].copy_from_slice(src);
        self.len = end;
    }

    pub(crate) fn put_u8(&mut self, b: u8)
        requires { length self.old + 1 ≤ 128 }
        ensures { self.new ≡ self.old ++ b ∷ [] }
    {
        self.put_bytes(&[b]);
    }

    // The digits of n, as few as hold it. There is space for twenty.
    pub(crate) fn put_decimal(&mut self, n: u64)
        requires { length self.old + 20 ≤ 128 }
        ensures put { self.new ≡ self.old ++ shown n }
        ensures upper_bound { length self.new ≤ length self.old + 20 }
    {
        let mut digits = [0u8; 20];
        let k = io::decimal(n, &mut digits);
        self.put_bytes(&digits[..k]);
    }

    // A number and the byte after it.
    pub(crate) fn put_field(&mut self, n: u64, end: u8)
        requires { length self.old + 21 ≤ 128 }
        ensures put { self.new ≡ self.old ++ field_text n end }
        ensures upper_bound { length self.new ≤ length self.old + 21 }
    {
        self.put_decimal(n);
        self.put_u8(end);
    }

    pub fn as_slice(&self) -> &[u8]
        ensures { result.now ≡ self.now }
    {
        &self.bytes[..self.len]
    }
}
