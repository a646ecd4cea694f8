// The fields of a picture or a sound.
ghost use Rattle.std.specs.Prelude.{◌≡◌};
ghost use Rattle.script.specs.Fields.{left};
ghost use Rattle.script.specs.Lines.{media_of};

use crate::fields::Fields;
use crate::reasons::Why;
use messages::RtmpTimestamp;
use octets::Span;

// Time, whether it may be dropped, and the place of the body, which is the last field.
pub(crate) fn media(fields: &mut Fields) -> Result<(RtmpTimestamp, bool, Span), Why>
    ensures { result ≡ media_of (left fields.old) }
{
    let time = RtmpTimestamp(fields.number()?);
    let droppable = fields.flag()?;
    let body = fields.hex()?;
    fields.end()?;
    Ok((time, droppable, body))
}
