// Bytes: UTF-8, big-endian numbers at a place, comparing, writing.
use case_lines::{Digits, Given, Hex, OrWord};
use octets::Writer;
use std::io;
use std::io::Write;

pub fn utf8<W: Write>(to: &mut W, given: &[u8]) -> io::Result<()> {
    write!(to, "{}", u8::from(octets::is_utf8(given)))
}

// What a reader found, in so many digits.
fn read(n: Option<u64>, width: usize) -> OrWord<'static, Digits> {
    OrWord(n.map(|n| Digits(n, width)), "short")
}

// The first 8 bytes are a place in the bytes after them: what the four readers find there.
pub fn reads<W: Write>(to: &mut W, given: &[u8]) -> io::Result<()> {
    let mut fields = Given::new(given);
    let Some(place) = fields.long() else {
        return Ok(());
    };
    let at = place as usize;
    let s = fields.rest();
    write!(
        to,
        "{}\t{}\t{}\t{}",
        read(octets::read_be16(s, at).map(u64::from), 4),
        read(octets::read_be24(s, at).map(u64::from), 6),
        read(octets::read_be32(s, at).map(u64::from), 8),
        read(octets::read_be64(s, at), 16)
    )
}

// A slice, a name that stands behind it, and a part of the slice.
#[derive(Debug, PartialEq, Eq, Clone, Copy)]
struct Named<'a> {
    s: &'a [u8],
    name: &'a [u8],
    start: usize,
    len: usize,
}

// Two numbers of 8 bytes are the start and the length of a part; then a byte is the length of the name that stands at the end.
fn read_named(given: &[u8]) -> Option<Named<'_>> {
    let mut fields = Given::new(given);
    let start = fields.long()? as usize;
    let len = fields.long()? as usize;
    let n = usize::from(fields.byte()?);
    let rest = fields.rest();
    let (s, name) = rest.split_at_checked(rest.len().checked_sub(n)?)?;
    Some(Named {
        s,
        name,
        start,
        len,
    })
}

// The part, and whether it is the name.
pub fn same<W: Write>(to: &mut W, given: &[u8]) -> io::Result<()> {
    let Some(
        Named {
            s,
            name,
            start,
            len,
        },
    ) = read_named(given)
    else {
        return Ok(());
    };
    let part = Hex(octets::part(s, start, len));
    let is_name = u8::from(octets::part_is(s, start, len, name));
    write!(to, "{part}\t{is_name}")
}

// A number of that many bytes, where there is space for it.
fn put(out: &mut [u8], at: usize, width: usize, n: u64) -> usize {
    if out.len().checked_sub(at).is_none_or(|room| room < width) {
        return at;
    }
    let mut w = Writer::starting_at(out, at);
    match width {
        1 => w.put_u8((n % 256) as u8),
        2 => w.put_be16((n % 65536) as u16),
        3 => w.put_be24((n % 16777216) as u32),
        4 => w.put_be32((n % 4294967296) as u32),
        8 => w.put_be64(n),
        _ => {}
    }
    w.position()
}

// The place after what was written, or why nothing was. Where the width is 0, the rest is a body; else it is the number.
fn written<W: Write>(
    to: &mut W,
    given: &[u8],
    width: usize,
    at: usize,
    out: &mut [u8],
) -> io::Result<()> {
    if width == 0 {
        return write!(
            to,
            "{}",
            OrWord(octets::write_bytes(out, given).ok(), "no space")
        );
    }
    match Given::new(given).long() {
        Some(n) => write!(to, "{}", put(out, at, width, n)),
        None => Ok(()),
    }
}

// The first byte is the length of the output, at most 64; the second the width of a number to put, the third its place, and the number
// follows in 8 bytes. Where the width is 0, what follows is written as a body. The output begins as bytes ee, and is shown.
pub fn writes<W: Write>(to: &mut W, given: &[u8], space: &mut [u8]) -> io::Result<()> {
    let [n, width, at, rest @ ..] = given else {
        return Ok(());
    };
    let Some(out) = space.get_mut(..usize::from(*n)) else {
        return Ok(());
    };
    out.fill(0xee);
    written(to, rest, usize::from(*width), usize::from(*at), out)?;
    write!(to, "\t{}", Hex(out))
}
