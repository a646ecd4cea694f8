// A script run from standard input: lines come in, result lines go out, and a line that can't be read gets a message on standard error.
#![tactic(auto)]

mod input;
mod lines;
mod open;
mod output;
mod results;
mod values;

use input::Input;
use lines::Run;
use output::Output;
use std::io;
use std::io::{Stderr, Stdin, Stdout};

// What is told of each line.
#[derive(Debug, PartialEq, Eq, Clone, Copy)]
pub enum Telling {
    // document 01's result lines
    Results,
    // those with the values of events, and after each line what is open: the active stream and the open requests
    Values,
}

// Until the input ends or can't be read, or a result can't be written. The turns are counted, as each function must be shown to end.
fn go_on(run: &mut Run<'_>, input: &mut Input<'_>) -> io::Result<()> {
    for _ in 0..u64::MAX {
        if !run.turn(input)? {
            break;
        }
    }
    Ok(())
}

// A line longer than `buf`, or a body longer than `body`, isn't run; `out` is lent to the calls, and results wait in `text`.
pub fn run_in(
    stdin: Stdin,
    stdout: Stdout,
    stderr: Stderr,
    telling: Telling,
    buf: &mut [u8],
    body: &mut [u8],
    out: &mut [u8],
    text: &mut [u8],
) {
    let mut input = Input::new(stdin, buf);
    let mut run = Run::new(telling, Output::new(stdout, stderr, text), body, out);
    // What failed has been told of.
    let _ = go_on(&mut run, &mut input);
}

// `run_in` with arrays of its own, as no heap is used: a line has at most 2,097,407 bytes and a body 1,048,576, so that such a body's digits fit a
// line.
pub fn run(stdin: Stdin, stdout: Stdout, stderr: Stderr, telling: Telling) {
    let mut buf = [0u8; 2097408];
    let mut body = [0u8; 1048576];
    let mut out = [0u8; 1048576];
    let mut text = [0u8; 65536];
    run_in(
        stdin, stdout, stderr, telling, &mut buf, &mut body, &mut out, &mut text,
    );
}
