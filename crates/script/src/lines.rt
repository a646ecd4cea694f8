// A whole line: clock, verb, fields.
ghost use Rattle.std.specs.Prelude.{◌≡◌, ◌-◌, ◌≤◌};
ghost use Rattle.script.specs.Fields.{left};
ghost use Rattle.script.specs.Lines.{msg_line, publish_line, verb_line, call_line, bare_line, closed, line_of};

use crate::asked::Line;
use crate::fields::{Fields, bare};
use crate::media::media;
use crate::opening::open_line;
use crate::reasons::Why;
use crate::verbs;
use crate::verbs::Verb;
use messages::{RtmpTimestamp, StreamNumber};

fn msg_line(fields: &mut Fields, clock: RtmpTimestamp) -> Result<Line, Why>
    ensures { result ≡ msg_line clock (left fields.old) }
{
    let type_id = u8::try_from(fields.number()?).map_err(|_| Why::Number)?;
    let time = RtmpTimestamp(fields.number()?);
    let stream = StreamNumber(fields.number()?);
    let body = fields.hex()?;
    fields.end()?;
    Ok(Line::Msg(clock, type_id, time, stream, body))
}

fn publish_line(fields: &mut Fields, clock: RtmpTimestamp) -> Result<Line, Why>
    ensures { result ≡ publish_line clock (left fields.old) }
{
    let key = fields.text()?;
    let kind = verbs::publish_type(fields.word()?).ok_or(Why::Kind)?;
    fields.end()?;
    Ok(Line::Publish(clock, key, kind))
}

// The answer, where no field is left.
fn closed(fields: &Fields, answer: Line) -> Result<Line, Why>
    ensures { result ≡ closed (left fields.now) answer }
{
    fields.end()?;
    Ok(answer)
}

// The verb's field is the last that was taken.
fn verb_line(fields: &mut Fields, clock: RtmpTimestamp, verb: Verb) -> Result<Line, Why>
    requires { 1 ≤ fields.old.next }
    ensures { result ≡ verb_line clock verb (fields.old.next - 1) (left fields.old) }
{
    match verb {
        Verb::Bytes => Ok(Line::Bytes(clock, fields.last_number()?)),
        Verb::Msg => msg_line(fields, clock),
        Verb::Connect => Ok(Line::Connect(clock, fields.last_text()?)),
        Verb::Play => Ok(Line::Play(clock, fields.last_text()?)),
        Verb::Publish => publish_line(fields, clock),
        Verb::StopPlayback => closed(fields, Line::StopPlayback(clock)),
        Verb::StopPublishing => closed(fields, Line::StopPublishing(clock)),
        Verb::Ping => closed(fields, Line::Ping(clock)),
        Verb::Video => {
            let (time, droppable, body) = media(fields)?;
            Ok(Line::Video(clock, time, droppable, body))
        }
        Verb::Audio => {
            let (time, droppable, body) = media(fields)?;
            Ok(Line::Audio(clock, time, droppable, body))
        }
        Verb::Metadata => Ok(Line::Metadata(clock, fields.next - 1)),
        Verb::Open => open_line(fields),
        Verb::Space => Ok(Line::Space(fields.last_number()?)),
    }
}

// A line from its verb on.
fn call_line(fields: &mut Fields, clock: RtmpTimestamp) -> Result<Line, Why>
    ensures { result ≡ call_line clock (left fields.old) }
{
    let verb = verbs::verb_of(fields.word()?).ok_or(Why::Verb)?;
    verb_line(fields, clock, verb)
}

fn bare_line(s: &[u8]) -> Result<Line, Why>
    ensures { result ≡ bare_line s.now }
{
    if s.is_empty() {
        return Ok(Line::Empty);
    }
    let mut fields = Fields::new(s);
    let clock = RtmpTimestamp(fields.number()?);
    call_line(&mut fields, clock)
}

// The line s, without its newline.
pub fn read_line(s: &[u8]) -> Result<Line, Why>
    ensures { result ≡ line_of s.now }
{
    bare_line(bare(s))
}
