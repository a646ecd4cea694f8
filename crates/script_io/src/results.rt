// Result lines.
use crate::output::Output;
use script_results::Head;
use session::{ClientSessionError, ClientSessionEvent, ClientSessionResult, Outcome, Packet};
use std::io;

// What the results of a line are told with: what each begins with, where bodies of messages to send lie, and, where events are told with
// their values, the body of the message that came.
#[derive(Debug, PartialEq, Eq, Clone, Copy)]
pub struct Results<'a> {
    pub head: Head,
    pub out: &'a [u8],
    pub message: Option<&'a [u8]>,
}

impl Results<'_> {
    // A message to send, whose body lies in out.
    fn packet(&self, output: &mut Output<'_>, sent: Packet) -> io::Result<()> {
        output.put(self.head.packet(sent).as_slice())?;
        output.digits(octets::part(self.out, sent.start, sent.len))?;
        output.put(b"\n")
    }

    // An event, with its values where they are told: those that are places lie in the message.
    fn event(&self, output: &mut Output<'_>, raised: ClientSessionEvent) -> io::Result<()> {
        output.put(self.head.event(raised).as_slice())?;
        if let Some(body) = self.message {
            output.values(raised, body)?;
        }
        output.put(b"\n")
    }

    fn one(&self, output: &mut Output<'_>, given: ClientSessionResult) -> io::Result<()> {
        match given {
            ClientSessionResult::OutboundResponse(sent) => self.packet(output, sent),
            ClientSessionResult::RaisedEvent(raised) => self.event(output, raised),
            ClientSessionResult::UnhandleableMessageReceived(type_id) => {
                output.put(self.head.unhandled(type_id).as_slice())
            }
        }
    }

    // A line for each result in turn. A ping request's time stands in its message.
    pub(crate) fn outcome(
        &self,
        output: &mut Output<'_>,
        answer: Result<Outcome, ClientSessionError>,
    ) -> io::Result<()> {
        match answer {
            Err(error) => output.put(self.head.refused(error).as_slice()),
            Ok(Outcome::Nothing) => output.put(self.head.none().as_slice()),
            Ok(Outcome::One(a)) => self.one(output, a),
            Ok(Outcome::Two(a, b)) => {
                self.packet(output, a)?;
                self.packet(output, b)
            }
            Ok(Outcome::Accepted(a, b)) => {
                self.packet(output, a)?;
                self.event(output, ClientSessionEvent::ConnectionRequestAccepted)?;
                self.packet(output, b)
            }
            Ok(Outcome::Pinged(a, _)) => self.packet(output, a),
        }
    }
}
