// The dispatch on a message's type.
ghost use Rattle.std.specs.Prelude.{◌≡◌};
ghost use Rattle.messages.specs.Incoming.{decode};
ghost use Rattle.messages.specs.Places.{placed};
ghost use Rattle.messages.specs.Steps.{leading_zero};

use crate::amf0_command::amf0_command;
use crate::amf0_data::amf0_data;
use crate::protocol_control::{last_word, set_peer_bandwidth};
use crate::rtmp_message::RtmpMessage;
use crate::user_control::user_control;
use amf0::Malformed;

// Where the command of a type 17 body starts: past one leading 0 byte, if there is one.
fn leading_zero(body: &[u8]) -> usize
    ensures { result ≡ leading_zero body.now }
{
    if body.first() == Some(&0) {
        return 1;
    }
    0
}

// What a body of that type says.
#[tactic(auto, unfolding(crate::specs::Incoming::decode, crate::specs::Places::placed))]
pub fn to_rtmp_message(type_id: u8, body: &[u8]) -> Result<RtmpMessage, Malformed>
    ensures { result ≡ placed body.now (decode type_id body.now) }
{
    match type_id {
        1 => Ok(RtmpMessage::SetChunkSize(last_word(body, 0)?)),
        2 => Ok(RtmpMessage::Abort(last_word(body, 0)?)),
        3 => Ok(RtmpMessage::Acknowledgement(last_word(body, 0)?)),
        4 => user_control(body),
        5 => Ok(RtmpMessage::WindowAcknowledgement(last_word(body, 0)?)),
        6 => set_peer_bandwidth(body),
        8 => Ok(RtmpMessage::AudioData),
        9 => Ok(RtmpMessage::VideoData),
        15 => amf0_data(body),
        17 => amf0_command(body, leading_zero(body)),
        18 => amf0_data(body),
        20 => amf0_command(body, 0),
        _ => Ok(RtmpMessage::Unknown),
    }
}
