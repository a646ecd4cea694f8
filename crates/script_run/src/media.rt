// The calls with a body or with metadata. A body's digits are decoded into the lent `body` first. Each call has a function of its own: through one that is
// given the call as a closure a line takes 0.3 µs more.
ghost use Rattle.std.specs.Prelude.{◌≡◌, Ok, Err, MatchResult, length};
ghost use Rattle.session.specs.Calls.{picture, sound, message};
ghost use Rattle.script.specs.Metadata.{metadata_line};
ghost use Rattle.script_run.specs.Asked.{body_of, with_body, with_metadata, Runs};

use crate::told::{Ran, apart};
use messages::{RtmpTimestamp, StreamNumber};
use script::Why;
use session::ClientSession;

// The bytes that the digits stand for, at the start of `body`; or why they can't be decoded.
fn decode<'a>(digits: &[u8], body: &'a mut [u8]) -> Result<&'a [u8], Why>
    ensures { MatchResult result (λ b. body_of (length body.old) digits.now ≡ Ok b.now) (λ w. body_of (length body.old) digits.now ≡ Err w) }
{
    let n = script::unhex(digits, body)?;
    Ok(octets::part(body, 0, n))
}

#[tactic(auto, unfolding(crate::specs::Asked::after, crate::specs::Asked::with_body))]
pub(crate) fn handle_message(
    session: ClientSession,
    clock: RtmpTimestamp,
    type_id: u8,
    time: RtmpTimestamp,
    stream: StreamNumber,
    digits: &[u8],
    body: &mut [u8],
    out: &mut [u8],
) -> Ran
    ensures { Runs session out.old (with_body clock (message type_id time stream) (body_of (length body.old) digits.now)) result out.new }
{
    match decode(digits, body) {
        Ok(data) => Ran::from(session.handle_message(clock, type_id, time, stream, data, out)),
        Err(why) => apart(session, Err(why)),
    }
}

#[tactic(auto, unfolding(crate::specs::Asked::after, crate::specs::Asked::with_body))]
pub(crate) fn publish_video(
    session: ClientSession,
    clock: RtmpTimestamp,
    time: RtmpTimestamp,
    droppable: bool,
    digits: &[u8],
    body: &mut [u8],
    out: &mut [u8],
) -> Ran
    ensures { Runs session out.old (with_body clock (λ b. picture b time droppable) (body_of (length body.old) digits.now)) result out.new }
{
    match decode(digits, body) {
        Ok(data) => Ran::from(session.publish_video_data(clock, data, time, droppable, out)),
        Err(why) => apart(session, Err(why)),
    }
}

#[tactic(auto, unfolding(crate::specs::Asked::after, crate::specs::Asked::with_body))]
pub(crate) fn publish_audio(
    session: ClientSession,
    clock: RtmpTimestamp,
    time: RtmpTimestamp,
    droppable: bool,
    digits: &[u8],
    body: &mut [u8],
    out: &mut [u8],
) -> Ran
    ensures { Runs session out.old (with_body clock (λ b. sound b time droppable) (body_of (length body.old) digits.now)) result out.new }
{
    match decode(digits, body) {
        Ok(data) => Ran::from(session.publish_audio_data(clock, data, time, droppable, out)),
        Err(why) => apart(session, Err(why)),
    }
}

// The fields stand after `to`, and the encoder's text in the line.
#[tactic(auto, unfolding(crate::specs::Asked::after, crate::specs::Asked::with_metadata))]
pub(crate) fn publish_metadata(
    session: ClientSession,
    clock: RtmpTimestamp,
    s: &[u8],
    to: usize,
    out: &mut [u8],
) -> Ran
    ensures { Runs session out.old (with_metadata clock s.now (metadata_line s.now to)) result out.new }
{
    match script::read_metadata(s, to) {
        Ok(fields) => Ran::from(session.publish_metadata(clock, fields, s, out)),
        Err(why) => apart(session, Err(why)),
    }
}
