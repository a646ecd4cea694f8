// An output that waits in fixed memory, so that a result costs no call of the system by itself.
ghost use Rattle.std.specs.Prelude.{◌≡◌, ◌+◌, ◌≤◌, [], IfOk, OnOk};
ghost use Rattle.std.specs.Io.KnownBytes.{Keeps};

use std::io;
use std::io::Write;

const SPACE: usize = 4096;

// What waits is the first `used` bytes. Without a heap this stands for a `BufWriter`.
#[derive(Drop)]
pub struct Output<W> {
    to: W,
    bytes: [u8; SPACE],
    used: usize,
    ghost within: { used ≤ 4096 },
}

impl<W: Write> Output<W> {
    ghost use Rattle.case_lines.specs.Waiting.{waiting, written};

    pub fn new(to: W) -> Output<W>
        ensures { written W.contents result ≡ W.contents to }
    {
        Output {
            to,
            bytes: [0; SPACE],
            used: 0,
        }
    }

    // One write of what waits: how much went out. The rest moves to the front.
    fn send(&mut self) -> io::Result<usize>
        ensures count { IfOk result (λ n. self.new.used + n ≡ self.old.used) }
        ensures bytes { Keeps (written W.contents self.old) (written W.contents self.new) }
    {
        let used = self.used;
        let sent = self.to.write(&self.bytes[..used])?;
        self.bytes.copy_within(sent..used, 0);
        self.used = used - sent;
        Ok(sent)
    }
}

impl<W: Write> Write for Output<W> {
    ghost use Rattle.case_lines.specs.Waiting.{waiting, written};

    ghost contents = { written W.contents };

    fn write(&mut self, buf: &[u8]) -> io::Result<usize> {
        if self.used == SPACE {
            self.send()?;
        }
        let used = self.used;
        let n = buf.len().min(SPACE - used);
        self.bytes[used..used + n].copy_from_slice(&buf[..n]);
        self.used = used + n;
        Ok(n)
    }

    fn flush(&mut self) -> io::Result<()>
        ensures bytes { Keeps (written W.contents self.old) (written W.contents self.new) }
        ensures ok { OnOk result (waiting self.new ≡ []) }
    {
        while self.used > 0 {
            if self.send()? == 0 {
                return Err(io::Error::from(io::ErrorKind::WriteZero));
            }
        }
        self.to.flush()
    }
}
