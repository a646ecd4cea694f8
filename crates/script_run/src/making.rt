// The calls without a body, each in a function of its own: in one function with all of them a line takes 0.6 µs more, since a function begins by setting
// the memory for all its sessions to zero.
#![tactic(auto, unfolding(crate::specs::Asked::after))]

ghost use Rattle.session.specs.Calls.{connect, play, publish, stop_playback, stop_publishing, ping, bytes};
ghost use Rattle.script_run.specs.Asked.{calls, Runs};

use crate::told::Ran;
use messages::{PublishRequestType, RtmpTimestamp};
use session::ClientSession;

pub(crate) fn handle_bytes(
    session: ClientSession,
    clock: RtmpTimestamp,
    count: u32,
    out: &mut [u8],
) -> Ran
    ensures { Runs session out.old (calls clock (bytes count)) result out.new }
{
    Ran::from(session.handle_bytes(clock, count, out))
}

pub(crate) fn request_connection(
    session: ClientSession,
    clock: RtmpTimestamp,
    app: &[u8],
    out: &mut [u8],
) -> Ran
    ensures { Runs session out.old (calls clock (connect app.now)) result out.new }
{
    Ran::from(session.request_connection(clock, app, out))
}

pub(crate) fn request_playback(
    session: ClientSession,
    clock: RtmpTimestamp,
    key: &[u8],
    out: &mut [u8],
) -> Ran
    ensures { Runs session out.old (calls clock (play key.now)) result out.new }
{
    Ran::from(session.request_playback(clock, key, out))
}

pub(crate) fn request_publishing(
    session: ClientSession,
    clock: RtmpTimestamp,
    key: &[u8],
    kind: PublishRequestType,
    out: &mut [u8],
) -> Ran
    ensures { Runs session out.old (calls clock (publish key.now kind)) result out.new }
{
    Ran::from(session.request_publishing(clock, key, kind, out))
}

pub(crate) fn stop_playback(session: ClientSession, clock: RtmpTimestamp, out: &mut [u8]) -> Ran
    ensures { Runs session out.old (calls clock stop_playback) result out.new }
{
    Ran::from(session.stop_playback(clock, out))
}

pub(crate) fn stop_publishing(session: ClientSession, clock: RtmpTimestamp, out: &mut [u8]) -> Ran
    ensures { Runs session out.old (calls clock stop_publishing) result out.new }
{
    Ran::from(session.stop_publishing(clock, out))
}

pub(crate) fn send_ping(session: ClientSession, clock: RtmpTimestamp, out: &mut [u8]) -> Ran
    ensures { Runs session out.old (calls clock ping) result out.new }
{
    Ran::from(session.send_ping_request(clock, out))
}
