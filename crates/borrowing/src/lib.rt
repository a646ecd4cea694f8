// The calls at the top, which borrow the session and update it: each makes the call by value, stores the session that it hands back, and answers its
// outcome. A picture or sound that comes leaves the session as it is: nothing is stored then, and the record isn't copied.
#![tactic(auto)]

ghost use Rattle.std.specs.Prelude.{◌≡◌};
ghost use Rattle.session.specs.Calls.{bytes, message};
ghost use Rattle.session.specs.Contract.{Does};
ghost use Rattle.borrowing.specs.Borrowed.{request_call, is_media, Stores};

use messages::{RtmpTimestamp, StreamNumber};
use requests::{OutstandingTransaction, TransactionPurpose};
use session::{Called, ClientSession, ClientSessionError, Outcome};

// The request of that kind, by value.
fn requested(
    session: ClientSession,
    clock: RtmpTimestamp,
    kind: OutstandingTransaction,
    text: &[u8],
    out: &mut [u8],
) -> Called
    ensures { Does session clock (request_call kind text.now) out.old result out.new }
{
    match kind {
        OutstandingTransaction::ConnectionRequested => {
            session.request_connection(clock, text, out)
        }
        OutstandingTransaction::CreateStream(purpose) => match purpose {
            TransactionPurpose::PlayRequest => session.request_playback(clock, text, out),
            TransactionPurpose::PublishRequest(publish_type) => {
                session.request_publishing(clock, text, publish_type, out)
            }
        },
    }
}

// A request: connect with the app name, play or publish with the stream key.
pub fn request(
    session: &mut ClientSession,
    clock: RtmpTimestamp,
    kind: OutstandingTransaction,
    text: &[u8],
    out: &mut [u8],
) -> Result<Outcome, ClientSessionError>
    ensures { Stores session.old clock (request_call kind text.now) out.old result session.new out.new }
{
    let s = *session;
    let called = requested(s, clock, kind, text, out);
    *session = called.session;
    called.outcome
}

// Whether it is the type of a picture or of sound.
fn is_media(type_id: u8) -> bool
    ensures { result ≡ is_media type_id }
{
    type_id == 8 || type_id == 9
}

// A message that came, with its type, its time, its stream and its whole body.
pub fn handle_message(
    session: &mut ClientSession,
    clock: RtmpTimestamp,
    type_id: u8,
    time: RtmpTimestamp,
    stream: StreamNumber,
    body: &[u8],
    out: &mut [u8],
) -> Result<Outcome, ClientSessionError>
    ensures { Stores session.old clock (message type_id time stream body.now) out.old result session.new out.new }
{
    if is_media(type_id) {
        return session.media_outcome(type_id, time, stream, body);
    }
    let s = *session;
    let called = s.handle_message(clock, type_id, time, stream, body, out);
    *session = called.session;
    called.outcome
}

// A count of bytes that came, before the messages that they brought.
pub fn handle_bytes(
    session: &mut ClientSession,
    clock: RtmpTimestamp,
    count: u32,
    out: &mut [u8],
) -> Result<Outcome, ClientSessionError>
    ensures { Stores session.old clock (bytes count) out.old result session.new out.new }
{
    let s = *session;
    let called = s.handle_bytes(clock, count, out);
    *session = called.session;
    called.outcome
}
