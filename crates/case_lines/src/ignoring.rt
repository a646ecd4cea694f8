// A writer whose errors stop nothing.
ghost use Rattle.std.specs.Prelude.{◌≡◌, length, Ok};

use std::io;
use std::io::Write;

// What can't be written is lost, and the next write is tried.
#[derive(Drop)]
pub struct IgnoreErrors<W>(pub W);

impl<W: Write> Write for IgnoreErrors<W> {
    fn write(&mut self, buf: &[u8]) -> io::Result<usize>
        ensures ok { result ≡ Ok (length buf.now) }
    {
        let _ = self.0.write_all(buf);
        Ok(buf.len())
    }

    fn flush(&mut self) -> io::Result<()>
        ensures ok { result ≡ Ok tt }
    {
        let _ = self.0.flush();
        Ok(())
    }
}
