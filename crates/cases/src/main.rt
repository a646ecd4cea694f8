// Runs the stored cases: a line of standard input is a letter, a tab and bytes in hexadecimal; a line of results goes out for each.
// docs/TESTING.md has what each letter means and how the lines were made.
#![tactic(auto)]

mod bytes;
mod number;
mod reading;
mod shown;
mod values;
mod writing;

use case_lines::IgnoreErrors;
use std::io;
use std::io::Write;

// One case: `given` holds the line's bytes.
fn case<W: Write>(to: &mut W, letter: u8, given: &[u8], out: &mut [u8]) -> io::Result<()> {
    match letter {
        b'n' => number::case(to, given),
        b'f' => number::single(to, given),
        b'u' => bytes::utf8(to, given),
        b'r' => bytes::reads(to, given),
        b's' => bytes::same(to, given),
        b'w' => bytes::writes(to, given, out),
        b'a' => values::case(to, given),
        b'm' => reading::case(to, given),
        b'e' => reading::events(to, given, out),
        b'b' => writing::case(to, given, out),
        _ => write!(to, "unknown letter"),
    }
}

fn line<W: Write>(to: &mut W, s: &[u8], space: &mut [u8], out: &mut [u8]) -> io::Result<()> {
    let [letter, _, digits @ ..] = s else {
        return Ok(());
    };
    case(to, *letter, case_lines::decode(digits, None, space), out)?;
    writeln!(to)
}

fn run<W: Write>(to: &mut W, text: &[u8]) -> io::Result<()> {
    // What is lent lies in arrays, since no heap is used.
    let mut space = [0u8; 131072];
    let mut out = [0u8; 2048];
    for s in text.split(|b| *b == b'\n') {
        line(to, s, &mut space, &mut out)?;
    }
    to.flush()
}

// Each word and each number of a result is a write of its own. One that fails is passed over, so that nothing is left for `run` to tell of.
fn main(rt: HostRuntime) {
    // The whole input lies in an array, since no heap is used.
    let mut space = [0u8; 2097152];
    let text = case_lines::read_full(&mut rt.stdin(), &mut space);
    let _ = run(&mut IgnoreErrors(rt.stdout()), text);
}
