// Runs the stored cases of the session's calls: a line of standard input makes a record by hand and then makes calls on it; a line of results
// goes out for each. The head of vectors/calls.py has the form of both.
#![tactic(auto)]

mod calling;
mod making;
mod showing;

use case_lines::{Given, Hex, IgnoreErrors};
use messages::RtmpTimestamp;
use session::ClientSession;
use showing::{Settings, Shown};
use std::io;
use std::io::Write;

// Opening with the settings of the record.
fn open<W: Write>(to: &mut W, session: &mut ClientSession) -> io::Result<()> {
    let called = ClientSession::new(session.config);
    *session = called.session;
    write!(to, "{}", Shown(&called.outcome))
}

// A call: what it answered, and the output that was lent. Each starts with the clock and the output's length.
fn call<W: Write>(
    to: &mut W,
    letter: u8,
    session: &mut ClientSession,
    mut given: Given<'_>,
    space: &mut [u8],
) -> io::Result<()> {
    let clock = RtmpTimestamp(given.number().unwrap_or(0));
    let len = usize::from(given.short().unwrap_or(0));
    let Some(out) = space.get_mut(..len) else {
        return Ok(());
    };
    out.fill(0xff);
    let called = calling::call(letter, *session, clock, given, out);
    *session = called.session;
    write!(to, "{}\t{}", Shown(&called.outcome), Hex(out))
}

// One field: the line's name, or a letter and hexadecimal.
fn field<W: Write>(
    to: &mut W,
    s: &[u8],
    session: &mut ClientSession,
    space: &mut [u8],
    out: &mut [u8],
) -> io::Result<()> {
    let Some((letter, text)) = s.split_first() else {
        return Ok(());
    };
    if *letter == b'=' {
        return to.write_all(text);
    }
    let given = Given::new(case_lines::decode(text, Some(b'.'), space));
    if making::set(*letter, session, given) {
        return Ok(());
    }
    write!(to, "\t")?;
    match letter {
        b'v' => write!(to, "{}", Shown(&*session)),
        b'w' => write!(to, "{}", Settings(&*session)),
        b'O' => open(to, session),
        _ => call(to, *letter, session, given, out),
    }
}

fn line<W: Write>(to: &mut W, s: &[u8], space: &mut [u8], out: &mut [u8]) -> io::Result<()> {
    let mut session = making::fresh();
    for part in s.split(|b| *b == b'\t') {
        field(to, part, &mut session, space, out)?;
    }
    writeln!(to)
}

fn run<W: Write>(to: &mut W, text: &[u8]) -> io::Result<()> {
    // What is lent lies in arrays, since no heap is used.
    let mut space = [0u8; 131072];
    let mut out = [0u8; 2048];
    for s in text.split_inclusive(|b| *b == b'\n') {
        line(to, s.strip_suffix(b"\n").unwrap_or(s), &mut space, &mut out)?;
    }
    to.flush()
}

// Each word and each number of a result is a write of its own. One that fails is passed over, so that nothing is left for `run` to tell of.
fn main(rt: HostRuntime) {
    // The whole input lies in an array, since no heap is used.
    let mut space = [0u8; 2097152];
    let text = case_lines::read_full(&mut rt.stdin(), &mut space);
    let _ = run(&mut IgnoreErrors(rt.stdout()), text);
}
