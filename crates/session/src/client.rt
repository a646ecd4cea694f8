// The calls: each consumes the session and hands back the new one. What a call does is a function that borrows the session, so that each
// refusal is an `Err`: it looks first whether the record is a session, then at the conditions of document 01's refusals in its order, and last
// at the space, once.
ghost use Rattle.std.specs.Prelude.{◌≡◌, Bool, false};
ghost use Rattle.session.specs.Record.{open_of};
ghost use Rattle.session.specs.Calls.{Call, connect, play, publish, stop_playback, stop_publishing, ping, picture, sound, metadata, bytes};
ghost use Rattle.session.specs.Plan.{request, unless_stage, is_connected, create_next, stop, published, if_large};
ghost use Rattle.session.specs.Step.{plan};
ghost use Rattle.session.specs.Comes.{called, stream_of};
ghost use Rattle.session.specs.Contract.{Does};

use crate::config::ClientSessionConfig;
use crate::errors::ClientSessionError;
use crate::record::{Called, ClientSession, Link, Progress};
use crate::result::Outcome;
use crate::sending;
use crate::state::ClientState;
use messages::{PublishRequestType, RtmpTimestamp, StreamMetadata, StreamNumber};
use requests::{OutstandingTransaction, Requests, TransactionPurpose};

impl ClientSession {
    // Opening.
    pub fn new(config: ClientSessionConfig) -> Called
        ensures { result ≡ open_of config }
    {
        let session = ClientSession {
            config,
            progress: Progress {
                state: ClientState::Disconnected,
                active: None,
            },
            requests: Requests::new(),
            link: Link {
                chunk: 128,
                window: None,
                pending: 0,
                total: 0,
            },
        };
        if !config.texts_sound() {
            let outcome = Err(ClientSessionError::Length);
            return Called { outcome, session };
        }
        if 2147483647 < config.chunk_size {
            let outcome = Err(ClientSessionError::InvalidMaxChunkSize);
            return Called { outcome, session };
        }
        let outcome = Ok(Outcome::Nothing);
        Called { outcome, session }
    }

    fn connect(
        &mut self,
        clock: RtmpTimestamp,
        app: &[u8],
        out: &mut [u8],
    ) -> Result<Outcome, ClientSessionError>
        ensures { Does self.old clock (connect app.now) out.old (called result self.new) out.new }
    {
        self.checked()?;
        if !self.progress.state.is_disconnected() {
            return Err(ClientSessionError::CantConnectWhileAlreadyConnected);
        }
        if !requests::fits(app) {
            return Err(ClientSessionError::Length);
        }
        let mut requests = self.requests;
        let number = requests.take(OutstandingTransaction::ConnectionRequested, app)?;
        let len = sending::connect(&self.config, number, app, out)?;
        self.requests = requests;
        Ok(sending::sent(20, clock, StreamNumber(0), false, len))
    }

    pub fn request_connection(mut self, clock: RtmpTimestamp, app: &[u8], out: &mut [u8]) -> Called
        ensures { Does self clock (connect app.now) out.old result out.new }
    {
        let outcome = self.connect(clock, app, out);
        Called {
            outcome,
            session: self,
        }
    }

    // Play and publish: a createStream for that purpose. `connect` has the same lines but for what is written; in one function that write would be
    // a closure with a contract of its own, longer than these lines.
    fn request_stream(
        &mut self,
        clock: RtmpTimestamp,
        purpose: TransactionPurpose,
        key: &[u8],
        out: &mut [u8],
    ) -> Result<Outcome, ClientSessionError>
        ensures { (c : Call) → plan self.old clock c ≡ request self.old clock (unless_stage is_connected self.old) (OutstandingTransaction.CreateStream purpose) key.now (create_next self.old) → Does self.old clock c out.old (called result self.new) out.new }
    {
        self.checked()?;
        if !self.progress.state.is_connected() {
            return Err(ClientSessionError::SessionInInvalidState(self.progress.state));
        }
        if !requests::fits(key) {
            return Err(ClientSessionError::Length);
        }
        let mut requests = self.requests;
        let number = requests.take(OutstandingTransaction::CreateStream(purpose), key)?;
        let len = bodies::write_create_stream(out, number)?;
        self.requests = requests;
        Ok(sending::sent(20, clock, StreamNumber(0), false, len))
    }

    pub fn request_playback(mut self, clock: RtmpTimestamp, key: &[u8], out: &mut [u8]) -> Called
        ensures { Does self clock (play key.now) out.old result out.new }
    {
        let outcome = self.request_stream(clock, TransactionPurpose::PlayRequest, key, out);
        Called {
            outcome,
            session: self,
        }
    }

    pub fn request_publishing(
        mut self,
        clock: RtmpTimestamp,
        key: &[u8],
        publish_type: PublishRequestType,
        out: &mut [u8],
    ) -> Called
        ensures { Does self clock (publish key.now publish_type) out.old result out.new }
    {
        let purpose = TransactionPurpose::PublishRequest(publish_type);
        let outcome = self.request_stream(clock, purpose, key, out);
        Called {
            outcome,
            session: self,
        }
    }

    // A stop: `own` says whether the stage is one of its two.
    fn stopped(
        &mut self,
        clock: RtmpTimestamp,
        own: bool,
        out: &mut [u8],
    ) -> Result<Outcome, ClientSessionError>
        ensures { (c : Call) (at : ClientState → Bool) → own ≡ at self.old.progress.state → plan self.old clock c ≡ stop self.old clock at → Does self.old clock c out.old (called result self.new) out.new }
    {
        self.checked()?;
        if !own {
            return Ok(Outcome::Nothing);
        }
        let outcome = match self.progress.active {
            None => Outcome::Nothing,
            Some(stream) => {
                let len = bodies::write_delete_stream(out, stream)?;
                sending::sent(20, clock, stream, false, len)
            }
        };
        self.progress = Progress {
            state: ClientState::Connected,
            active: None,
        };
        Ok(outcome)
    }

    pub fn stop_playback(mut self, clock: RtmpTimestamp, out: &mut [u8]) -> Called
        ensures { Does self clock stop_playback out.old result out.new }
    {
        let own = self.progress.state.is_play();
        let outcome = self.stopped(clock, own, out);
        Called {
            outcome,
            session: self,
        }
    }

    pub fn stop_publishing(mut self, clock: RtmpTimestamp, out: &mut [u8]) -> Called
        ensures { Does self clock stop_publishing out.old result out.new }
    {
        let own = self.progress.state.is_publish();
        let outcome = self.stopped(clock, own, out);
        Called {
            outcome,
            session: self,
        }
    }

    fn ping(&self, clock: RtmpTimestamp, out: &mut [u8]) -> Result<Outcome, ClientSessionError>
        ensures { Does self.now clock ping out.old (called result self.now) out.new }
    {
        self.checked()?;
        let len = bodies::write_ping_request(out, clock)?;
        let request = sending::packet(4, clock, StreamNumber(0), false, len);
        Ok(Outcome::Pinged(request, clock))
    }

    // A ping request that carries the clock, which is handed back.
    pub fn send_ping_request(self, clock: RtmpTimestamp, out: &mut [u8]) -> Called
        ensures { Does self clock ping out.old result out.new }
    {
        let outcome = self.ping(clock, out);
        Called {
            outcome,
            session: self,
        }
    }

    // The stream to publish on.
    fn stream(&self) -> Result<StreamNumber, ClientSessionError>
        ensures { result ≡ stream_of self.now }
    {
        self.checked()?;
        if !self.progress.state.is_publishing() {
            return Err(ClientSessionError::SessionInInvalidState(self.progress.state));
        }
        self.progress
            .active
            .ok_or(ClientSessionError::NoKnownActiveStreamIdWhenRequired)
    }

    // Pictures and sound, with the caller's time and droppable flag.
    fn publish_data(
        &self,
        type_id: u8,
        data: &[u8],
        time: RtmpTimestamp,
        droppable: bool,
        out: &mut [u8],
    ) -> Result<Outcome, ClientSessionError>
        ensures { (clock : RtmpTimestamp) (c : Call) → plan self.now clock c ≡ published self.now clock (if_large «data».now) (λ x. record { type_id = type_id; time = time; stream = x; droppable = droppable; uncompressed = false; body = «data».now }) → Does self.now clock c out.old (called result self.now) out.new }
    {
        let stream = self.stream()?;
        if 16777215 < data.len() {
            return Err(ClientSessionError::Length);
        }
        let len = octets::write_bytes(out, data)?;
        Ok(sending::sent(type_id, time, stream, droppable, len))
    }

    pub fn publish_video_data(
        self,
        clock: RtmpTimestamp,
        data: &[u8],
        time: RtmpTimestamp,
        droppable: bool,
        out: &mut [u8],
    ) -> Called
        ensures { Does self clock (picture «data».now time droppable) out.old result out.new }
    {
        let outcome = self.publish_data(9, data, time, droppable, out);
        Called {
            outcome,
            session: self,
        }
    }

    pub fn publish_audio_data(
        self,
        clock: RtmpTimestamp,
        data: &[u8],
        time: RtmpTimestamp,
        droppable: bool,
        out: &mut [u8],
    ) -> Called
        ensures { Does self clock (sound «data».now time droppable) out.old result out.new }
    {
        let outcome = self.publish_data(8, data, time, droppable, out);
        Called {
            outcome,
            session: self,
        }
    }

    fn publish_fields(
        &self,
        clock: RtmpTimestamp,
        fields: StreamMetadata,
        text: &[u8],
        out: &mut [u8],
    ) -> Result<Outcome, ClientSessionError>
        ensures { Does self.now clock (metadata fields text.now) out.old (called result self.now) out.new }
    {
        let stream = self.stream()?;
        if !sending::encoder_fits(fields.encoder, text) {
            return Err(ClientSessionError::Length);
        }
        let len = bodies::write_metadata(out, fields, text)?;
        Ok(sending::sent(18, clock, stream, false, len))
    }

    // The encoder's text lies in `text`.
    pub fn publish_metadata(
        self,
        clock: RtmpTimestamp,
        fields: StreamMetadata,
        text: &[u8],
        out: &mut [u8],
    ) -> Called
        ensures { Does self clock (metadata fields text.now) out.old result out.new }
    {
        let outcome = self.publish_fields(clock, fields, text, out);
        Called {
            outcome,
            session: self,
        }
    }

    fn count(
        &mut self,
        clock: RtmpTimestamp,
        count: u32,
        out: &mut [u8],
    ) -> Result<Outcome, ClientSessionError>
        ensures { Does self.old clock (bytes count) out.old (called result self.new) out.new }
    {
        self.checked()?;
        let total = self.link.total.wrapping_add(count as u64);
        let Some(size) = self.link.window else {
            self.link.total = total;
            return Ok(Outcome::Nothing);
        };
        let sum = (self.link.pending as u64) + (count as u64);
        let low = self.link.pending.wrapping_add(count);
        if sum < size as u64 {
            self.link.pending = low;
            self.link.total = total;
            return Ok(Outcome::Nothing);
        }
        let len = bodies::write_acknowledgement(out, low)?;
        self.link.pending = 0;
        self.link.total = total;
        Ok(sending::sent(3, clock, StreamNumber(0), false, len))
    }

    // A count of bytes that came, before the messages that they brought.
    pub fn handle_bytes(mut self, clock: RtmpTimestamp, count: u32, out: &mut [u8]) -> Called
        ensures { Does self clock (bytes count) out.old result out.new }
    {
        let outcome = self.count(clock, count, out);
        Called {
            outcome,
            session: self,
        }
    }
}
