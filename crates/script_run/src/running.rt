// A line carried out.
ghost use Rattle.std.specs.Prelude.{length};
ghost use Rattle.script.specs.Lines.{line_of};
ghost use Rattle.script_run.specs.Asked.{asks, Runs};

use crate::told::{Came, Ran, apart};
use crate::{making, media, opening};
use script::Line;
use session::{ClientSession, ClientSessionConfig};

// The line s, without its newline. `body` is lent for the bytes of the line's body: nothing is said of what it holds after.
#[tactic(auto, unfolding(crate::specs::Asked::asked, crate::specs::Asked::after))]
pub fn run_line(session: ClientSession, s: &[u8], body: &mut [u8], out: &mut [u8]) -> Ran
    ensures { Runs session out.old (asks (length body.old) s.now (line_of s.now)) result out.new }
{
    let line = match script::read_line(s) {
        Ok(line) => line,
        Err(why) => return apart(session, Err(why)),
    };
    match line {
        Line::Empty => apart(session, Ok(Came::Passed)),
        Line::Space(n) => apart(session, Ok(Came::Space(n))),
        Line::Bytes(clock, count) => making::handle_bytes(session, clock, count, out),
        Line::Msg(clock, type_id, time, stream, at) => {
            let digits = at.part_of(s);
            media::handle_message(session, clock, type_id, time, stream, digits, body, out)
        }
        Line::Connect(clock, at) => making::request_connection(session, clock, at.part_of(s), out),
        Line::Play(clock, at) => making::request_playback(session, clock, at.part_of(s), out),
        Line::Publish(clock, at, kind) => {
            making::request_publishing(session, clock, at.part_of(s), kind, out)
        }
        Line::StopPlayback(clock) => making::stop_playback(session, clock, out),
        Line::StopPublishing(clock) => making::stop_publishing(session, clock, out),
        Line::Ping(clock) => making::send_ping(session, clock, out),
        Line::Video(clock, time, droppable, at) => {
            media::publish_video(session, clock, time, droppable, at.part_of(s), body, out)
        }
        Line::Audio(clock, time, droppable, at) => {
            media::publish_audio(session, clock, time, droppable, at.part_of(s), body, out)
        }
        Line::Metadata(clock, to) => media::publish_metadata(session, clock, s, to, out),
        Line::OpenDefault => opening::open(session, ClientSessionConfig::new()),
        Line::Open(settings) => opening::open(session, opening::config(s, settings)),
    }
}
