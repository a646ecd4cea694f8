// The calls, each with its arguments from bytes that vectors/calls.py describes.
use case_lines::Given;
use messages::{RtmpTimestamp, StreamMetadata};
use octets::Span;
use session::{Called, ClientSession};

fn publish(
    session: ClientSession,
    clock: RtmpTimestamp,
    mut given: Given<'_>,
    out: &mut [u8],
) -> Called {
    let publish_type = case_lines::publish_type(given.byte().unwrap_or(0));
    session.request_publishing(clock, given.rest(), publish_type, out)
}

// A picture's or a sound's time, and whether it may be dropped; its data follow.
fn media(given: &mut Given<'_>) -> (RtmpTimestamp, bool) {
    let time = RtmpTimestamp(given.number().unwrap_or(0));
    (time, given.byte() == Some(1))
}

fn video(
    session: ClientSession,
    clock: RtmpTimestamp,
    mut given: Given<'_>,
    out: &mut [u8],
) -> Called {
    let (time, may_drop) = media(&mut given);
    session.publish_video_data(clock, given.rest(), time, may_drop, out)
}

fn audio(
    session: ClientSession,
    clock: RtmpTimestamp,
    mut given: Given<'_>,
    out: &mut [u8],
) -> Called {
    let (time, may_drop) = media(&mut given);
    session.publish_audio_data(clock, given.rest(), time, may_drop, out)
}

// The encoder's place: two numbers of 8 bytes, which may be any.
fn encoder(is_there: bool, given: &mut Given<'_>) -> Option<Span> {
    let start = given.long().unwrap_or(0) as usize;
    let len = given.long().unwrap_or(0) as usize;
    is_there.then_some(Span { start, len })
}

fn metadata(
    session: ClientSession,
    clock: RtmpTimestamp,
    mut given: Given<'_>,
    out: &mut [u8],
) -> Called {
    let (others, has_encoder) = case_lines::metadata(&mut given);
    let encoder = encoder(has_encoder, &mut given);
    let fields = StreamMetadata { encoder, ..others };
    session.publish_metadata(clock, fields, given.rest(), out)
}

// The call of a letter; any other than those before it is a byte count.
pub fn call(
    letter: u8,
    session: ClientSession,
    clock: RtmpTimestamp,
    mut given: Given<'_>,
    out: &mut [u8],
) -> Called {
    match letter {
        b'C' => session.request_connection(clock, given.rest(), out),
        b'P' => session.request_playback(clock, given.rest(), out),
        b'U' => publish(session, clock, given, out),
        b'S' => session.stop_playback(clock, out),
        b'T' => session.stop_publishing(clock, out),
        b'I' => session.send_ping_request(clock, out),
        b'V' => video(session, clock, given, out),
        b'A' => audio(session, clock, given, out),
        b'M' => metadata(session, clock, given, out),
        _ => session.handle_bytes(clock, given.number().unwrap_or(0), out),
    }
}
