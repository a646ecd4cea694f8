// Events. Texts and values are places in the message's body; a picture's or a sound's data is the whole body.
use messages::{RtmpTimestamp, StreamMetadata};
use octets::Span;

#[derive(Clone, Copy, Debug, PartialEq)]
pub enum ClientSessionEvent {
    ConnectionRequestAccepted,
    // the description, if there is one
    ConnectionRequestRejected(Option<Span>),
    PlaybackRequestAccepted,
    PublishRequestAccepted,
    StreamMetadataReceived(StreamMetadata),
    VideoDataReceived(RtmpTimestamp),
    AudioDataReceived(RtmpTimestamp),
    // the place of the name; the pattern of the Number; where the object and the arguments start
    UnhandleableAmf0Command {
        name: Span,
        number: u64,
        object: usize,
        args: usize,
    },
    UnknownTransactionResultReceived {
        number: u64,
        object: usize,
        args: usize,
    },
    // the place of the code
    UnhandleableOnStatusCode(Span),
    AcknowledgementReceived(u32),
    PingResponseReceived(RtmpTimestamp),
}
