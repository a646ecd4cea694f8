// Hexadecimal read and written.
ghost use Rattle.std.specs.Prelude.{◌<◌, ◌≤◌, length};

use std::{fmt, str};

fn nibble(b: u8) -> u8
    ensures { result < 16 }
{
    match b {
        b'0'..=b'9' => b - b'0',
        b'a'..=b'f' => b - b'a' + 10,
        _ => 0,
    }
}

// The bytes that s spells, as many as `space` has room for. Where there is a `mark`, it is passed over before a byte's first digit.
pub fn decode<'a>(s: &[u8], mark: Option<u8>, space: &'a mut [u8]) -> &'a [u8]
    ensures { length result.now ≤ length space.old }
{
    let mut digits = s.iter().copied();
    let mut n = 0;
    for b in space.iter_mut() {
        let Some(high) = digits.find(|c| Some(*c) != mark) else {
            break;
        };
        let Some(low) = digits.next() else {
            break;
        };
        *b = nibble(high) * 16 + nibble(low);
        n += 1;
    }
    &space[..n]
}

// Bytes that print as their digits, two each.
#[derive(Debug, PartialEq, Eq, Clone, Copy)]
pub struct Hex<'a>(pub &'a [u8]);

impl fmt::Display for Hex<'_> {
    fn fmt<W: fmt::Write>(&self, f: &mut fmt::Formatter<W>) -> fmt::Result {
        for b in self.0 {
            write!(f, "{}", Digits(u64::from(*b), 2))?;
        }
        Ok(())
    }
}

const DIGITS: [u8; 16] = *b"0123456789abcdef";

// A number that prints in at least so many digits. Where these are at most 16, they and the zeros in front are one piece.
#[derive(Debug, PartialEq, Eq, Clone, Copy)]
pub struct Digits(pub u64, pub usize);

impl fmt::Display for Digits {
    fn fmt<W: fmt::Write>(&self, f: &mut fmt::Formatter<W>) -> fmt::Result {
        let Digits(n, width) = *self;
        if width > 16 {
            return write!(f, "{n:0width$x}");
        }
        let mut digits = [b'0'; 16];
        let mut rest = n;
        for d in digits.iter_mut().rev() {
            *d = DIGITS[(rest % 16) as usize];
            rest /= 16;
        }
        let first = digits.iter().position(|d| *d != b'0').unwrap_or(15);
        let text = &digits[first.min(16 - width)..];
        f.write_str(str::from_utf8(text).map_err(|_| fmt::Error)?)
    }
}
