// What a line asks for.
use messages::{PublishRequestType, RtmpTimestamp, StreamNumber};
use octets::Span;

// What a session is opened with: the places of the flash version and of the tcUrl, None where none is configured; the length of the playback buffer
// in milliseconds; the window and the chunk size.
#[derive(Clone, Copy, Debug, PartialEq, Eq)]
pub struct Settings {
    pub flash: Span,
    pub buffer: u32,
    pub window: u32,
    pub chunk: u32,
    pub url: Option<Span>,
}

// The first of a call's values is the clock. A Span is the place of a text or of a body's digits in the line.
#[derive(Clone, Copy, Debug, PartialEq, Eq)]
pub enum Line {
    Empty,
    // a count
    Bytes(RtmpTimestamp, u32),
    // type, time, stream and body of a message that came
    Msg(RtmpTimestamp, u8, RtmpTimestamp, StreamNumber, Span),
    // the app
    Connect(RtmpTimestamp, Span),
    // the key
    Play(RtmpTimestamp, Span),
    Publish(RtmpTimestamp, Span, PublishRequestType),
    StopPlayback(RtmpTimestamp),
    StopPublishing(RtmpTimestamp),
    Ping(RtmpTimestamp),
    // time, whether it may be dropped, and body
    Video(RtmpTimestamp, RtmpTimestamp, bool, Span),
    Audio(RtmpTimestamp, RtmpTimestamp, bool, Span),
    // the place after which the fields stand
    Metadata(RtmpTimestamp, usize),
    OpenDefault,
    Open(Settings),
    // the length of the lent output for the lines after
    Space(u32),
}
