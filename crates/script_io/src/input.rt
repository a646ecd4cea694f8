// Standard input, a piece at a time. A piece may end anywhere in a line; what has no end yet is kept at the start of buf.
ghost use Rattle.std.specs.Prelude.{◌≡◌, ◌≤◌, length};

use std::io;
use std::io::{Read, Stdin};

// The first `held` bytes of buf are at hand; no heap is used.
#[derive(Drop)]
pub struct Input<'a> {
    stdin: Stdin,
    buf: &'a mut [u8],
    held: usize,
    ghost within: { held ≤ length buf.now },
}

impl<'a> Input<'a> {
    pub(crate) fn new(stdin: Stdin, buf: &'a mut [u8]) -> Input<'a> {
        Input {
            stdin,
            buf,
            held: 0,
        }
    }

    pub(crate) fn is_full(&self) -> bool {
        self.held == self.buf.len()
    }

    pub(crate) fn len(&self) -> usize
        ensures { result ≡ self.now.held }
    {
        self.held
    }

    pub(crate) fn at_hand(&self) -> &[u8]
        ensures { length result.now ≡ self.now.held }
    {
        &self.buf[..self.held]
    }

    // One read, after the bytes at hand: how many more there are.
    pub(crate) fn read(&mut self) -> io::Result<usize> {
        let n = self.stdin.read(&mut self.buf[self.held..])?;
        self.held += n;
        Ok(n)
    }

    // What stands before `from` is done with: what is left moves to the front.
    pub(crate) fn pass(&mut self, from: usize)
        requires { from ≤ self.old.held }
    {
        self.buf.copy_within(from..self.held, 0);
        self.held -= from;
    }
}
