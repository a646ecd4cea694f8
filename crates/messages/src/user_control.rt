// Bodies of type 4.
ghost use Rattle.std.specs.Prelude.{◌≡◌, drop};
ghost use Rattle.messages.specs.Incoming.{buffer_length, user_control, user_control_of, whole};
ghost use Rattle.messages.specs.Places.{placed};

use crate::ids::{RtmpTimestamp, StreamNumber};
use crate::protocol_control::last_word;
use crate::rtmp_message::{RtmpMessage, UserControlEvent};
use amf0::Malformed;

// What follows event 3.
fn set_buffer_length(body: &[u8]) -> Result<RtmpMessage, Malformed>
    ensures { result ≡ placed body.now (whole user_control (buffer_length (drop 2 body.now))) }
{
    let stream = StreamNumber(octets::read_be32(body, 2).ok_or(Malformed)?);
    let length = last_word(body, 6)?;
    Ok(RtmpMessage::UserControl(UserControlEvent::SetBufferLength { stream, length }))
}

#[tactic(auto, unfolding(crate::specs::Incoming::event_of, crate::specs::Incoming::user_control_of, crate::specs::Places::placed))]
pub fn user_control(body: &[u8]) -> Result<RtmpMessage, Malformed>
    ensures { result ≡ placed body.now (user_control_of body.now) }
{
    let event = octets::read_be16(body, 0).ok_or(Malformed)?;
    if event == 3 {
        return set_buffer_length(body);
    }
    let n = last_word(body, 2)?;
    let event = match event {
        0 => UserControlEvent::StreamBegin(StreamNumber(n)),
        1 => UserControlEvent::StreamEof(StreamNumber(n)),
        2 => UserControlEvent::StreamDry(StreamNumber(n)),
        4 => UserControlEvent::StreamIsRecorded(StreamNumber(n)),
        6 => UserControlEvent::PingRequest(RtmpTimestamp(n)),
        7 => UserControlEvent::PingResponse(RtmpTimestamp(n)),
        _ => return Err(Malformed),
    };
    Ok(RtmpMessage::UserControl(event))
}
