// Text for standard output, which waits in a lent text until that is full or the lines at hand are done.
use octets::NoSpace;
use script::Why;
use std::io::{Print, Result, Stderr, Stdout};

// The first `used` bytes of the text wait; no heap is used. Messages go to `stderr`.
#[derive(Drop)]
pub struct Output<'a> {
    text: &'a mut [u8],
    used: usize,
    stdout: Stdout,
    stderr: Stderr,
}

impl<'a> Output<'a> {
    pub(crate) fn new(stdout: Stdout, stderr: Stderr, text: &'a mut [u8]) -> Output<'a> {
        Output {
            text,
            used: 0,
            stdout,
            stderr,
        }
    }

    // Writes what waits. A write that fails is told of here, and then nothing more is to be written.
    pub(crate) fn flush(&mut self) -> Result<()> {
        // Read first: the check has no rule for other fields while the text is lent.
        let used = self.used;
        let stdout = self.stdout;
        let written = stdout.write_all(octets::part(self.text, 0, used));
        self.used = 0;
        if written.is_err() {
            self.complain(b"card: standard output can't be written\n");
        }
        written
    }

    // A message on standard error; one that can't be written is passed over.
    pub(crate) fn complain(&self, message: &[u8]) {
        let _ = self.stderr.write_all(message);
    }

    // Says what is wrong with the line of that number.
    pub(crate) fn unread(&self, line: u64, why: Why) {
        self.complain(script_results::complaint(line, why).as_slice());
    }

    // What `write` puts at the place that it is given; 4,096 bytes, more than any piece has, are free there.
    pub(crate) fn piece<F: FnOnce(&mut [u8], usize) -> std::result::Result<usize, NoSpace>>(
        &mut self,
        write: F,
    ) -> Result<()>
        requires { F.IsAlwaysCallable write }
    {
        if self.text.len().saturating_sub(self.used) < 4096 {
            self.flush()?;
        }
        if let Ok(end) = write(self.text, self.used) {
            self.used = end;
        }
        Ok(())
    }

    // The bytes of s, at most 4,096.
    pub(crate) fn put(&mut self, s: &[u8]) -> Result<()> {
        self.piece(|text, at| script_results::write_at(text, at, s))
    }

    // Bytes of any length as hexadecimal digits, in pieces.
    pub(crate) fn digits(&mut self, bytes: &[u8]) -> Result<()> {
        for part in bytes.chunks(1024) {
            self.piece(|text, at| script_results::write_hex(text, at, part))?;
        }
        Ok(())
    }

    // A decimal number.
    pub(crate) fn number(&mut self, n: u64) -> Result<()> {
        // No heap is used; no u64 has more digits.
        let mut spelt = [0u8; 20];
        let k = io::decimal(n, &mut spelt);
        self.put(&spelt[..k])
    }
}
