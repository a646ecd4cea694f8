// What a call answers.
ghost use Rattle.std.specs.Prelude.{◌≡◌};

use crate::events::ClientSessionEvent;
use messages::{RtmpTimestamp, StreamNumber};

// An outbound message. Its body lies in the lent output.
#[derive(Clone, Copy, Debug, PartialEq, Eq)]
pub struct Packet {
    pub type_id: u8,
    pub time: RtmpTimestamp,
    pub stream: StreamNumber,
    pub droppable: bool,
    pub uncompressed: bool,
    pub start: usize,
    pub len: usize,
}

#[derive(Clone, Copy, Debug, PartialEq)]
pub enum ClientSessionResult {
    OutboundResponse(Packet),
    RaisedEvent(ClientSessionEvent),
    // the message's type; the rest is what the caller passed
    UnhandleableMessageReceived(u8),
}

// What a call that was not turned away answers.
#[derive(Clone, Copy, Debug, PartialEq)]
pub enum Outcome {
    Nothing,
    One(ClientSessionResult),
    // two messages
    Two(Packet, Packet),
    // a connect that was accepted: a message, the event ConnectionRequestAccepted, a message
    Accepted(Packet, Packet),
    // a ping request, and the time that it carries
    Pinged(Packet, RtmpTimestamp),
}

// One event.
pub(crate) fn raised(event: ClientSessionEvent) -> Outcome
    ensures { result ≡ Outcome.One (ClientSessionResult.RaisedEvent event) }
{
    Outcome::One(ClientSessionResult::RaisedEvent(event))
}
