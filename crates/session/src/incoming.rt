// A message that came: what its body says, and what that comes to. Replies are in replies.rt, notices in notices.rt.
ghost use Rattle.std.specs.Prelude.{◌≡◌, ℕ, true, List, Ok};
ghost use Rattle.session.specs.Record.{is_session};
ghost use Rattle.session.specs.Calls.{message as message_call};
ghost use Rattle.session.specs.Message.{is_active, media_type, if_active, media_in, data_in, control_in, window_in, chunk_in, command_of, on_message};
ghost use Rattle.session.specs.Comes.{Comes, called};
ghost use Rattle.session.specs.Contract.{Does};

use crate::errors::ClientSessionError;
use crate::events::ClientSessionEvent;
use crate::record::{Called, ClientSession};
use crate::result::{ClientSessionResult, Outcome, raised};
use crate::sending;
use messages::{
    Command, CommandName, DataMessage, RtmpMessage, RtmpTimestamp, StreamNumber, UserControlEvent,
};

fn is_active(active: Option<StreamNumber>, stream: StreamNumber) -> bool
    ensures { result ≡ is_active active stream }
{
    active == Some(stream)
}

impl ClientSession {
    // An event of a message on the active stream; a message on another stream comes to nothing.
    fn if_active(&self, stream: StreamNumber, event: ClientSessionEvent) -> Outcome
        ensures { (clock : RtmpTimestamp) (b old : List ℕ) → Comes self.now (if_active self.now clock b stream event) old (called (Ok result) self.now) old }
    {
        if is_active(self.progress.active, stream) {
            return raised(event);
        }
        Outcome::Nothing
    }

    // Pictures and sound, by stage and stream.
    fn handle_media_data(
        &self,
        stream: StreamNumber,
        event: ClientSessionEvent,
    ) -> Result<Outcome, ClientSessionError>
        ensures { (clock : RtmpTimestamp) (b old : List ℕ) → Comes self.now (media_in self.now clock b stream event) old (called result self.now) old }
    {
        if !self.progress.state.is_play() {
            return Err(ClientSessionError::SessionInInvalidState(self.progress.state));
        }
        Ok(self.if_active(stream, event))
    }

    // Values: a stream's metadata, or others, which come to nothing.
    fn handle_amf0_data(&self, stream: StreamNumber, said: DataMessage, body: &[u8]) -> Outcome
        ensures { (clock : RtmpTimestamp) (old : List ℕ) → Comes self.now (data_in self.now clock body.now stream said) old (called (Ok result) self.now) old }
    {
        match said {
            DataMessage::OnMetaData(place) => self.if_active(
                stream,
                ClientSessionEvent::StreamMetadataReceived(messages::read_metadata(body, place)),
            ),
            DataMessage::Other => Outcome::Nothing,
        }
    }

    // A ping request is answered at once.
    fn handle_user_control(
        &self,
        clock: RtmpTimestamp,
        event: UserControlEvent,
        out: &mut [u8],
    ) -> Result<Outcome, ClientSessionError>
        ensures { (b : List ℕ) → Comes self.now (control_in self.now clock b event) out.old (called result self.now) out.new }
    {
        match event {
            UserControlEvent::PingRequest(time) => {
                let len = bodies::write_ping_response(out, time)?;
                Ok(sending::sent(4, clock, StreamNumber(0), false, len))
            }
            UserControlEvent::PingResponse(time) => {
                Ok(raised(ClientSessionEvent::PingResponseReceived(time)))
            }
            _ => Ok(Outcome::Nothing),
        }
    }

    // The peer's window, which applies from the next count of bytes on.
    fn handle_window_ack_size(&mut self, size: u32) -> Outcome
        ensures { (clock : RtmpTimestamp) (b old : List ℕ) → Comes self.old (window_in self.old clock b size) old (called (Ok result) self.new) old }
    {
        self.link.window = Some(size);
        Outcome::Nothing
    }

    fn handle_set_chunk_size(&mut self, size: u32) -> Result<Outcome, ClientSessionError>
        ensures { (clock : RtmpTimestamp) (b old : List ℕ) → Comes self.old (chunk_in self.old clock b size) old (called result self.new) old }
    {
        if 2147483647 < size {
            return Err(ClientSessionError::InvalidMaxChunkSize);
        }
        self.link.chunk = size;
        Ok(Outcome::Nothing)
    }

    fn handle_amf0_command(
        &mut self,
        clock: RtmpTimestamp,
        command: Command,
        body: &[u8],
        out: &mut [u8],
    ) -> Result<Outcome, ClientSessionError>
        requires { is_session self.old ≡ true }
        ensures { Comes self.old (command_of self.old clock body.now command command.name) out.old (called result self.new) out.new }
    {
        match command.name {
            CommandName::Result => self.handle_success_result(clock, command, out),
            CommandName::Error => self.handle_failed_result(command, body),
            CommandName::OnStatus => self.handle_on_status_command(command.args, body),
            CommandName::Other => Ok(raised(ClientSessionEvent::UnhandleableAmf0Command {
                name: command.name_at,
                number: command.number,
                object: command.object,
                args: command.args,
            })),
        }
    }

    // By what the body says.
    fn dispatched(
        &mut self,
        clock: RtmpTimestamp,
        type_id: u8,
        time: RtmpTimestamp,
        stream: StreamNumber,
        message: RtmpMessage,
        body: &[u8],
        out: &mut [u8],
    ) -> Result<Outcome, ClientSessionError>
        requires { is_session self.old ≡ true }
        ensures { Comes self.old (on_message self.old clock body.now type_id time stream (Ok message)) out.old (called result self.new) out.new }
    {
        match message {
            RtmpMessage::Unknown | RtmpMessage::Abort(_) | RtmpMessage::SetPeerBandwidth { .. } =>
                Ok(Outcome::One(ClientSessionResult::UnhandleableMessageReceived(type_id))),
            RtmpMessage::Acknowledgement(count) => {
                Ok(raised(ClientSessionEvent::AcknowledgementReceived(count)))
            }
            RtmpMessage::Amf0Command(command) => {
                self.handle_amf0_command(clock, command, body, out)
            }
            RtmpMessage::Amf0Data(said) => Ok(self.handle_amf0_data(stream, said, body)),
            RtmpMessage::AudioData => {
                self.handle_media_data(stream, ClientSessionEvent::AudioDataReceived(time))
            }
            RtmpMessage::VideoData => {
                self.handle_media_data(stream, ClientSessionEvent::VideoDataReceived(time))
            }
            RtmpMessage::SetChunkSize(size) => self.handle_set_chunk_size(size),
            RtmpMessage::UserControl(event) => self.handle_user_control(clock, event, out),
            RtmpMessage::WindowAcknowledgement(size) => Ok(self.handle_window_ack_size(size)),
        }
    }

    // The outcome of a picture or of sound that came: sound if its type is 8, else a picture. The session stays as it is.
    pub fn media_outcome(
        &self,
        type_id: u8,
        time: RtmpTimestamp,
        stream: StreamNumber,
        body: &[u8],
    ) -> Result<Outcome, ClientSessionError>
        ensures { (clock : RtmpTimestamp) (old : List ℕ) → Does self.now clock (message_call (media_type type_id) time stream body.now) old (called result self.now) old }
    {
        self.checked()?;
        if 16777215 < body.len() {
            return Err(ClientSessionError::Length);
        }
        if type_id == 8 {
            return self.handle_media_data(stream, ClientSessionEvent::AudioDataReceived(time));
        }
        self.handle_media_data(stream, ClientSessionEvent::VideoDataReceived(time))
    }

    fn received(
        &mut self,
        clock: RtmpTimestamp,
        type_id: u8,
        time: RtmpTimestamp,
        stream: StreamNumber,
        body: &[u8],
        out: &mut [u8],
    ) -> Result<Outcome, ClientSessionError>
        ensures { Does self.old clock (message_call type_id time stream body.now) out.old (called result self.new) out.new }
    {
        self.checked()?;
        if 16777215 < body.len() {
            return Err(ClientSessionError::Length);
        }
        let message = messages::to_rtmp_message(type_id, body)?;
        self.dispatched(clock, type_id, time, stream, message, body, out)
    }

    // A message that came, with its type, its time, its stream and its whole body.
    pub fn handle_message(
        mut self,
        clock: RtmpTimestamp,
        type_id: u8,
        time: RtmpTimestamp,
        stream: StreamNumber,
        body: &[u8],
        out: &mut [u8],
    ) -> Called
        ensures { Does self clock (message_call type_id time stream body.now) out.old result out.new }
    {
        let outcome = self.received(clock, type_id, time, stream, body, out);
        Called {
            outcome,
            session: self,
        }
    }
}
