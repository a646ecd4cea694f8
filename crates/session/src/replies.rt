// Replies to requests: `_result` and `_error`. The request under the reply's number is closed, whatever its reply says.
ghost use Rattle.std.specs.Prelude.{◌≡◌, ℕ, ◌≤◌, true, false, List, length};
ghost use Rattle.numbers.specs.Numbers.{held};
ghost use Rattle.octets.specs.Output.{Written};
ghost use Rattle.requests.specs.Texts.{text_sound};
ghost use Rattle.requests.specs.Places.{lookup};
ghost use Rattle.requests.specs.Table.{closed};
ghost use Rattle.session.specs.Outcomes.{output, outcome_of};
ghost use Rattle.session.specs.Record.{is_session};
ghost use Rattle.session.specs.Message.{accepted as accepted_of, stream_number, grant_sends, requested_stage, granted as granted_of, unknown_reply, result_to, error_to};
ghost use Rattle.session.specs.Comes.{Comes, called, packet_of};
ghost use Rattle.session.specs.declared.result.ClientSessionResult.{ClientSessionResult};

use crate::errors::ClientSessionError;
use crate::events::ClientSessionEvent;
use crate::record::{ClientSession, Progress};
use crate::result::{Outcome, Packet, raised};
use crate::sending;
use crate::state::ClientState;
use messages::{Argument, Command, RtmpTimestamp, StreamNumber, TransactionNumber};
use octets::NoSpace;
use requests::{OutstandingTransaction, Requests, Text, TransactionPurpose};

// The results of a connect that was accepted: a window size of 4 bytes, the event, and a chunk size of 4 bytes after the window size.
fn accepted_results(clock: RtmpTimestamp) -> Outcome
    ensures { result ≡ Outcome.Accepted (packet_of 5 clock (record { 0 = 0 }) false 4) (record { type_id = 1; time = record { 0 = 0 }; stream = record { 0 = 0 }; droppable = false; uncompressed = true; start = 4; len = 4 }) }
{
    let size = Packet {
        type_id: 1,
        time: RtmpTimestamp(0),
        stream: StreamNumber(0),
        droppable: false,
        uncompressed: true,
        start: 4,
        len: 4,
    };
    Outcome::Accepted(sending::packet(5, clock, StreamNumber(0), false, 4), size)
}

// Playback asks for two messages, the first of 10 bytes, and publishing for one.
fn write_grant(
    ms: u32,
    purpose: TransactionPurpose,
    key: &Text,
    stream: StreamNumber,
    out: &mut [u8],
) -> Result<usize, NoSpace>
    requires { text_sound key.now ≡ true }
    ensures { (s : ClientSession) (clock : RtmpTimestamp) (b : List ℕ) → s.config.playback_buffer_length_ms ≡ ms → Written out.old (output (grant_sends s clock b purpose key.now stream)) out.new result }
{
    match purpose {
        TransactionPurpose::PlayRequest => bodies::write_play(out, stream, ms, key.as_slice()),
        TransactionPurpose::PublishRequest(kind) => bodies::write_publish(
            out,
            key.as_slice(),
            kind,
        ),
    }
}

// The results of a grant whose bodies have `len` bytes together.
fn grant_results(
    clock: RtmpTimestamp,
    purpose: TransactionPurpose,
    stream: StreamNumber,
    len: usize,
) -> Outcome
    requires { 10 ≤ len }
    ensures { (s : ClientSession) (b : List ℕ) (key : Text) → len ≡ length (output (grant_sends s clock b purpose key stream)) → result ≡ outcome_of (grant_sends s clock b purpose key stream) }
{
    match purpose {
        TransactionPurpose::PlayRequest => {
            let play = Packet {
                type_id: 20,
                time: clock,
                stream,
                droppable: false,
                uncompressed: false,
                start: 10,
                len: len - 10,
            };
            Outcome::Two(sending::packet(4, clock, StreamNumber(0), false, 10), play)
        }
        TransactionPurpose::PublishRequest(_) => { sending::sent(20, clock, stream, false, len) }
    }
}

// The stream's number, if the first argument is a Number.
fn stream_number(first: Option<Argument>) -> Option<StreamNumber>
    ensures { result ≡ stream_number first }
{
    match first? {
        Argument::Number(bits) => Some(StreamNumber(numbers::hold(bits))),
        _ => None,
    }
}

// The stage that a grant gives.
fn requested_stage(purpose: TransactionPurpose) -> ClientState
    ensures { result ≡ requested_stage purpose }
{
    match purpose {
        TransactionPurpose::PlayRequest => ClientState::PlayRequested,
        TransactionPurpose::PublishRequest(_) => ClientState::PublishRequested,
    }
}

// A reply that no open request waits for.
fn unknown_reply(command: Command) -> Outcome
    ensures { result ≡ Outcome.One (ClientSessionResult.RaisedEvent (unknown_reply command)) }
{
    raised(ClientSessionEvent::UnknownTransactionResultReceived {
        number: command.number,
        object: command.object,
        args: command.args,
    })
}

impl ClientSession {
    // `_result` to a connect. `rest` has the requests with that one closed.
    fn accepted(
        &mut self,
        rest: Requests,
        clock: RtmpTimestamp,
        out: &mut [u8],
    ) -> Result<Outcome, ClientSessionError>
        ensures { (b : List ℕ) (n : ℕ) → rest ≡ closed self.old.requests n → Comes self.old (accepted_of self.old clock b n) out.old (called result self.new) out.new }
    {
        bodies::write_sizes(out, self.config.window_ack_size, self.config.chunk_size)?;
        self.requests = rest;
        self.progress.state = ClientState::Connected;
        Ok(accepted_results(clock))
    }

    // `_result` to a createStream, by the stream's number. `rest` has the requests with that one closed.
    fn granted(
        &mut self,
        rest: Requests,
        clock: RtmpTimestamp,
        purpose: TransactionPurpose,
        key: &Text,
        stream: Option<StreamNumber>,
        out: &mut [u8],
    ) -> Result<Outcome, ClientSessionError>
        requires { text_sound key.now ≡ true }
        ensures { (b : List ℕ) (n : ℕ) → rest ≡ closed self.old.requests n → Comes self.old (granted_of self.old clock b n purpose key.now stream) out.old (called result self.new) out.new }
    {
        let Some(stream) = stream else {
            self.requests = rest;
            return Err(ClientSessionError::CreateStreamResponseHadNoStreamNumber);
        };
        let ms = self.config.playback_buffer_length_ms;
        let len = write_grant(ms, purpose, key, stream, out)?;
        self.requests = rest;
        self.progress = Progress {
            state: requested_stage(purpose),
            active: Some(stream),
        };
        Ok(grant_results(clock, purpose, stream, len))
    }

    // `_result`.
    pub(crate) fn handle_success_result(
        &mut self,
        clock: RtmpTimestamp,
        command: Command,
        out: &mut [u8],
    ) -> Result<Outcome, ClientSessionError>
        requires { is_session self.old ≡ true }
        ensures { (b : List ℕ) → Comes self.old (result_to self.old clock b command (held command.number) (lookup (held command.number) self.old.requests.places)) out.old (called result self.new) out.new }
    {
        let number = numbers::hold(command.number);
        let mut rest = self.requests;
        let Some(request) = rest.close(TransactionNumber(number)) else {
            return Ok(unknown_reply(command));
        };
        match request.kind {
            OutstandingTransaction::ConnectionRequested => self.accepted(rest, clock, out),
            OutstandingTransaction::CreateStream(purpose) => {
                let stream = stream_number(command.first);
                self.granted(rest, clock, purpose, &request.text, stream, out)
            }
        }
    }

    // `_error`.
    pub(crate) fn handle_failed_result(
        &mut self,
        command: Command,
        body: &[u8],
    ) -> Result<Outcome, ClientSessionError>
        ensures { (clock : RtmpTimestamp) (old : List ℕ) → Comes self.old (error_to self.old clock body.now command (held command.number) (lookup (held command.number) self.old.requests.places)) old (called result self.new) old }
    {
        let number = numbers::hold(command.number);
        let Some(request) = self.requests.close(TransactionNumber(number)) else {
            return Ok(unknown_reply(command));
        };
        match request.kind {
            OutstandingTransaction::ConnectionRequested => {
                let text = amf0::text_at(body, command.args, b"description");
                Ok(raised(ClientSessionEvent::ConnectionRequestRejected(text)))
            }
            OutstandingTransaction::CreateStream(_) => Err(ClientSessionError::CreateStreamFailed),
        }
    }
}
