// Result lines.
ghost use Rattle.std.specs.Prelude.{◌≡◌, ◌+◌, ◌≤◌, ◌++◌, length};
ghost use Rattle.session.specs.Numbers.{event_place};
ghost use Rattle.script_results.specs.Results.{head_text, none_line, number_line, event_head, open_head, unhandled_line, refused_line, flags_text, numbers_text, packet_head};

use crate::line::Line;
use session::{ClientSessionError, ClientSessionEvent, ClientState, Packet};

// What each result line begins with: the line's number and the stage after it.
#[derive(Debug, PartialEq, Eq, Clone, Copy)]
pub struct Head {
    pub line: u64,
    pub stage: ClientState,
}

// By which number a result line names an event: its place in events.rs. That is of these lines, which tell an event's values elsewhere, so it is no From.
fn event_place(event: ClientSessionEvent) -> u8
    ensures { result ≡ event_place event }
{
    match event {
        ClientSessionEvent::ConnectionRequestAccepted => 0,
        ClientSessionEvent::ConnectionRequestRejected(_) => 1,
        ClientSessionEvent::PlaybackRequestAccepted => 2,
        ClientSessionEvent::PublishRequestAccepted => 3,
        ClientSessionEvent::StreamMetadataReceived(_) => 4,
        ClientSessionEvent::VideoDataReceived(_) => 5,
        ClientSessionEvent::AudioDataReceived(_) => 6,
        ClientSessionEvent::UnhandleableAmf0Command { .. } => 7,
        ClientSessionEvent::UnknownTransactionResultReceived { .. } => 8,
        ClientSessionEvent::UnhandleableOnStatusCode(_) => 9,
        ClientSessionEvent::AcknowledgementReceived(_) => 10,
        ClientSessionEvent::PingResponseReceived(_) => 11,
    }
}

// Type, time and stream.
#[tactic(auto, unfolding(crate::specs::Results::numbers_text))]
fn put_numbers(text: &mut Line, packet: Packet)
    requires { length text.old + 63 ≤ 128 }
    ensures put { text.new ≡ text.old ++ numbers_text packet }
    ensures upper_bound { length text.new ≤ length text.old + 63 }
{
    text.put_field(packet.type_id as u64, 9);
    text.put_field(packet.time.0 as u64, 9);
    text.put_field(packet.stream.0 as u64, 9);
}

// Whether it may be dropped, and whether it goes uncompressed.
#[tactic(auto, unfolding(crate::specs::Results::flags_text))]
fn put_flags(text: &mut Line, packet: Packet)
    requires { length text.old + 4 ≤ 128 }
    ensures { text.new ≡ text.old ++ flags_text packet }
{
    text.put_u8(b'0' + u8::from(packet.droppable));
    text.put_u8(9);
    text.put_u8(b'0' + u8::from(packet.uncompressed));
    text.put_u8(9);
}

impl Head {
    #[tactic(auto, unfolding(crate::specs::Results::head_text))]
    fn begun(self) -> Line
        ensures text { result ≡ head_text self.line self.stage }
        ensures upper_bound { length result ≤ 42 }
    {
        let mut text = Line::new();
        text.put_field(self.line, 9);
        text.put_field(u8::from(self.stage) as u64, 9);
        text
    }

    // A word and a number.
    #[tactic(auto, unfolding(crate::specs::Results::number_line))]
    fn numbered(self, word: &[u8], n: u8) -> Line
        requires { length word.now ≤ 16 }
        ensures { result ≡ number_line self.line self.stage word.now n }
    {
        let mut text = self.begun();
        text.put_bytes(word);
        text.put_field(n as u64, 10);
        text
    }

    // A success without results.
    #[tactic(auto, unfolding(crate::specs::Results::none_line))]
    pub fn none(self) -> Line
        ensures { result ≡ none_line self.line self.stage }
    {
        let mut text = self.begun();
        text.put_bytes(b"none\n");
        text
    }

    // An event, up to its values: these, where they are told, and the line's end come after.
    #[tactic(auto, unfolding(crate::specs::Results::event_head))]
    pub fn event(self, event: ClientSessionEvent) -> Line
        ensures { result ≡ event_head self.line self.stage event }
    {
        let mut text = self.begun();
        text.put_bytes(b"event\t");
        text.put_decimal(event_place(event) as u64);
        text
    }

    // What is open after a line, up to the active stream: that, the open requests and the line's end come after.
    #[tactic(auto, unfolding(crate::specs::Results::open_head))]
    pub fn open(self) -> Line
        ensures { result ≡ open_head self.line self.stage }
    {
        let mut text = self.begun();
        text.put_bytes(b"open\t");
        text
    }

    pub fn unhandled(self, type_id: u8) -> Line
        ensures { result ≡ unhandled_line self.line self.stage type_id }
    {
        self.numbered(b"unhandled\t", type_id)
    }

    pub fn refused(self, error: ClientSessionError) -> Line
        ensures { result ≡ refused_line self.line self.stage error }
    {
        self.numbered(b"refused\t", u8::from(error))
    }

    // A message to send, up to its body: the body's digits and the line's end come after.
    #[tactic(auto, unfolding(crate::specs::Results::packet_head))]
    pub fn packet(self, packet: Packet) -> Line
        ensures { result ≡ packet_head self.line self.stage packet }
    {
        let mut text = self.begun();
        text.put_bytes(b"out\t");
        put_numbers(&mut text, packet);
        put_flags(&mut text, packet);
        text
    }
}
