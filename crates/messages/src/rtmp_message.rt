// What a message says.
ghost use Rattle.std.specs.Prelude.{◌≡◌};
ghost use Rattle.messages.specs.Numbers.{limit_type};

use crate::ids::{RtmpTimestamp, StreamNumber};
use amf0::Malformed;
use octets::Span;

// How a window that limits our output is meant.
#[derive(Clone, Copy, Debug, PartialEq, Eq)]
pub enum PeerBandwidthLimitType {
    Hard,
    Soft,
    Dynamic,
}

impl TryFrom<u8> for PeerBandwidthLimitType {
    type Error = Malformed;

    ghost try_from_gives = { λ n r. r ≡ limit_type n };

    #[tactic(auto, unfolding(crate::specs::Numbers::limit_type))]
    fn try_from(n: u8) -> Result<Self, Malformed> {
        match n {
            0 => Ok(PeerBandwidthLimitType::Hard),
            1 => Ok(PeerBandwidthLimitType::Soft),
            2 => Ok(PeerBandwidthLimitType::Dynamic),
            _ => Err(Malformed),
        }
    }
}

// An event of type 4 with its values.
#[derive(Clone, Copy, Debug, PartialEq, Eq)]
pub enum UserControlEvent {
    StreamBegin(StreamNumber),
    StreamEof(StreamNumber),
    StreamDry(StreamNumber),
    // the length is in milliseconds
    SetBufferLength { stream: StreamNumber, length: u32 },
    StreamIsRecorded(StreamNumber),
    PingRequest(RtmpTimestamp),
    PingResponse(RtmpTimestamp),
}

// The command names that a client acts on.
#[derive(Clone, Copy, Debug, PartialEq, Eq)]
pub enum CommandName {
    Result,
    Error,
    OnStatus,
    Other,
}

// A command's argument, where the kinds that a client reads differ. A Number is its bit pattern.
#[derive(Clone, Copy, Debug, PartialEq, Eq)]
pub enum Argument {
    Number(u64),
    Object,
    Other,
}

// A command: its name, with the place of its bytes; the pattern of its Number; where its object and its arguments start; the first of these.
#[derive(Clone, Copy, Debug, PartialEq, Eq)]
pub struct Command {
    pub name: CommandName,
    pub name_at: Span,
    pub number: u64,
    pub object: usize,
    pub args: usize,
    pub first: Option<Argument>,
}

// Values: `onMetaData` and an object that starts there, or others. No Option: None would say that nothing came, where another message came.
#[derive(Clone, Copy, Debug, PartialEq, Eq)]
pub enum DataMessage {
    OnMetaData(usize),
    Other,
}

#[derive(Clone, Copy, Debug, PartialEq, Eq)]
pub enum RtmpMessage {
    // a type that RTMP 1.0 doesn't have
    Unknown,
    Abort(u32),
    Acknowledgement(u32),
    Amf0Command(Command),
    Amf0Data(DataMessage),
    AudioData,
    SetChunkSize(u32),
    SetPeerBandwidth {
        size: u32,
        limit: PeerBandwidthLimitType,
    },
    UserControl(UserControlEvent),
    VideoData,
    WindowAcknowledgement(u32),
}
