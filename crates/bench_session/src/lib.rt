// What bench/ times: loops of calls on a session, over numbers and slices. Each makes `rounds` calls on a session with `open` requests open
// and hands back a sum of what they answered, so that no call can be left out; the driver compares it with the Rust session's.
#![tactic(auto)]

mod answers;

use messages::{RtmpTimestamp, StreamNumber};
use requests::{OutstandingTransaction, Requests};
use session::{Called, ClientSession, ClientSessionConfig, ClientState, Progress};

// On stream 1.
fn at(state: ClientState) -> Progress {
    Progress {
        state,
        active: Some(StreamNumber(1)),
    }
}

fn stage(number: u8) -> ClientState {
    match number {
        1 => ClientState::Connected,
        2 => ClientState::PlayRequested,
        3 => ClientState::Playing,
        4 => ClientState::PublishRequested,
        5 => ClientState::Publishing,
        _ => ClientState::Disconnected,
    }
}

fn opened() -> ClientSession {
    ClientSession::new(ClientSessionConfig::new()).session
}

// With `open` requests; more than eight can't be taken.
fn asking(open: u8) -> Requests {
    let mut requests = Requests::new();
    for _ in 0..open {
        let _number = requests.take(
            OutstandingTransaction::ConnectionRequested,
            b"a stream key of 32 bytes, or so.",
        );
    }
    requests
}

// At that stage, with `open` requests open.
fn at_stage(number: u8, open: u8) -> ClientSession {
    let mut session = opened();
    session.progress = at(stage(number));
    session.requests = asking(open);
    session
}

// `rounds` calls, each on the session that the one before handed back: the sum of what they answered.
fn repeated<F: Fn(ClientSession, RtmpTimestamp, &mut [u8]) -> Called>(
    mut session: ClientSession,
    rounds: u32,
    out: &mut [u8],
    call: F,
) -> u64
    requires { F.IsAlwaysCallable call }
{
    let mut sum: u64 = 0;
    for i in 0..rounds {
        let called = call(session, RtmpTimestamp(i), out);
        session = called.session;
        sum = sum.wrapping_add(answers::of(called.outcome, out));
    }
    sum
}

// Pictures go out.
#[unsafe(no_mangle)]
pub extern "C" fn bench_picture(rounds: u32, open: u8, data: &[u8], out: &mut [u8]) -> u64 {
    repeated(at_stage(5, open), rounds, out, |session, time, out| {
        session.publish_video_data(time, data, time, true, out)
    })
}

// Sound goes out.
#[unsafe(no_mangle)]
pub extern "C" fn bench_sound(rounds: u32, open: u8, data: &[u8], out: &mut [u8]) -> u64 {
    repeated(at_stage(5, open), rounds, out, |session, time, out| {
        session.publish_audio_data(time, data, time, true, out)
    })
}

// A message comes in, each time at that stage. Its own loop: a closure that sets the stage copies the record, 217 ns in place of 150 for a picture.
#[unsafe(no_mangle)]
pub extern "C" fn bench_message(
    rounds: u32,
    open: u8,
    number: u8,
    type_id: u8,
    body: &[u8],
    out: &mut [u8],
) -> u64 {
    let mut session = at_stage(number, open);
    let progress = session.progress;
    let mut sum: u64 = 0;
    for i in 0..rounds {
        let time = RtmpTimestamp(i);
        session.progress = progress;
        let called = session.handle_message(time, type_id, time, StreamNumber(1), body, out);
        session = called.session;
        sum = sum.wrapping_add(answers::of(called.outcome, out));
    }
    sum
}

// Messages come in, each on the session that is lent to the call. A picture and sound write nothing, so the output has no bytes, and change
// nothing: the next number, which refusal 13 reads, rises with the turns, as the compiler would else make the test once and compute the sum. Its own
// loop, as `repeated` makes calls that take the session by value.
fn lent(mut session: ClientSession, rounds: u32, type_id: u8, body: &[u8]) -> u64 {
    let mut sum: u64 = 0;
    for i in 0..rounds {
        session.requests.next = session.requests.next.max(u64::from(i));
        let time = RtmpTimestamp(i);
        let outcome = borrowing::handle_message(
            &mut session,
            time,
            type_id,
            time,
            StreamNumber(1),
            body,
            &mut [],
        );
        sum = answers::raised(sum, outcome);
    }
    sum
}

// The same, lent.
#[unsafe(no_mangle)]
pub extern "C" fn bench_lent(rounds: u32, open: u8, number: u8, type_id: u8, body: &[u8]) -> u64 {
    let session = at_stage(number, open);
    lent(session, rounds, type_id, body)
}

// Counts of bytes come in.
#[unsafe(no_mangle)]
pub extern "C" fn bench_bytes(
    rounds: u32,
    open: u8,
    window: u32,
    count: u32,
    out: &mut [u8],
) -> u64 {
    let mut first = at_stage(0, open);
    first.link.window = Some(window);
    repeated(first, rounds, out, |session, time, out| {
        session.handle_bytes(time, count, out)
    })
}

#[derive(Debug, PartialEq, Eq, Clone, Copy)]
struct Answered {
    sum: u64,
    session: ClientSession,
}

// A connect goes out and its reply comes in.
fn connected(
    session: ClientSession,
    time: RtmpTimestamp,
    app: &[u8],
    reply: &[u8],
    out: &mut [u8],
) -> Answered {
    let asked = session.request_connection(time, app, out);
    let sum = answers::of(asked.outcome, out);
    let called = asked
        .session
        .handle_message(time, 20, time, StreamNumber(0), reply, out);
    Answered {
        sum: sum.wrapping_add(answers::of(called.outcome, out)),
        session: called.session,
    }
}

// Each time from Disconnected with 1 as the next number. Its own loop, since a turn is two calls: a closure that
// answers `Answered`, for all five loops, took 919 to 960 ns for a turn in place of 628.
#[unsafe(no_mangle)]
pub extern "C" fn bench_connect(
    rounds: u32,
    open: u8,
    app: &[u8],
    reply: &[u8],
    out: &mut [u8],
) -> u64 {
    let mut session = at_stage(0, open);
    let progress = session.progress;
    let mut sum: u64 = 0;
    for i in 0..rounds {
        let time = RtmpTimestamp(i);
        session.progress = progress;
        session.requests.next = 1;
        let done = connected(session, time, app, reply, out);
        session = done.session;
        sum = sum.wrapping_add(done.sum);
    }
    sum
}
