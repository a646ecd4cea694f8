// A text written from a place of a lent output on, where all of it fits.
ghost use Rattle.script_results.specs.Output.{WrittenAt};

use octets::{NoSpace, Writer};

pub fn write_at(out: &mut [u8], at: usize, text: &[u8]) -> Result<usize, NoSpace>
    ensures { WrittenAt out.old at text.now out.new result }
{
    if out.len() < at {
        return Err(NoSpace);
    }
    if out.len() - at < text.len() {
        return Err(NoSpace);
    }
    let mut w = Writer::starting_at(out, at);
    w.put_bytes(text);
    Ok(w.position())
}
