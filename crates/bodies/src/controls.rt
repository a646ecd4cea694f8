// Bodies of types 1, 3, 4 and 5.
ghost use Rattle.std.specs.Prelude.{◌≡◌, ◌++◌, ◌+◌};
ghost use Rattle.octets.specs.BigEndian.{digits};
ghost use Rattle.octets.specs.Output.{Room, Put, Written};
ghost use Rattle.messages.specs.declared.rtmp_message.UserControlEvent.TheVariants.{SetBufferLength, PingRequest, PingResponse};
ghost use Rattle.bodies.specs.Bodies.{control_body, word_body};

use messages::{RtmpTimestamp, StreamNumber};
use octets::{NoSpace, Writer};

// An event with one value.
fn write_event(out: &mut [u8], event: u16, value: u32) -> Result<usize, NoSpace>
    ensures { Written out.old (digits 2 event ++ digits 4 value) out.new result }
{
    if out.len() < 6 {
        return Err(NoSpace);
    }
    let mut w = Writer::new(out);
    w.put_be16(event);
    w.put_be32(value);
    Ok(w.position())
}

pub fn write_ping_request(out: &mut [u8], time: RtmpTimestamp) -> Result<usize, NoSpace>
    ensures { Written out.old (control_body (PingRequest time)) out.new result }
{
    write_event(out, 6, time.0)
}

pub fn write_ping_response(out: &mut [u8], time: RtmpTimestamp) -> Result<usize, NoSpace>
    ensures { Written out.old (control_body (PingResponse time)) out.new result }
{
    write_event(out, 7, time.0)
}

// SetBufferLength, in milliseconds.
pub fn put_set_buffer_length(w: &mut Writer, stream: StreamNumber, ms: u32)
    requires { Room w.old 10 }
    ensures put { Put w.old (control_body (SetBufferLength stream ms)) w.new }
    ensures value { w.new.at ≡ w.old.at + 10 }
{
    w.put_be16(3);
    w.put_be32(stream.0);
    w.put_be32(ms);
}

pub fn write_acknowledgement(out: &mut [u8], n: u32) -> Result<usize, NoSpace>
    ensures { Written out.old (word_body n) out.new result }
{
    octets::write_bytes(out, &n.to_be_bytes())
}

// A window size, and then a chunk size.
pub fn write_sizes(out: &mut [u8], window: u32, chunk: u32) -> Result<usize, NoSpace>
    ensures { Written out.old (word_body window ++ word_body chunk) out.new result }
{
    if out.len() < 8 {
        return Err(NoSpace);
    }
    let mut w = Writer::new(out);
    w.put_be32(window);
    w.put_be32(chunk);
    Ok(w.position())
}
