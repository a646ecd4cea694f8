// What a call answered, and the record, written out.
use case_lines::{Hex, OrDash, OrWord};
use messages::PublishRequestType;
use requests::{OutstandingTransaction, Place, Text, TransactionPurpose};
use session::{ClientSession, ClientSessionError, ClientSessionResult, Outcome, Packet};
use std::fmt;

// A value of a crate below, to be printed.
#[derive(Debug, PartialEq, Eq, Clone, Copy)]
pub struct Shown<'a, T>(pub &'a T);

// The settings of a record: flash version; buffer length, window size and chunk size; tcUrl, `-` where none is configured.
#[derive(Debug, PartialEq, Eq, Clone, Copy)]
pub struct Settings<'a>(pub &'a ClientSession);

// A flag goes out with its space.
fn flag(b: bool) -> &'static str {
    if b { " 1" } else { " 0" }
}

// The number of document 01's table, and behind 2 the stage.
impl fmt::Display for Shown<'_, ClientSessionError> {
    fn fmt<W: fmt::Write>(&self, f: &mut fmt::Formatter<W>) -> fmt::Result {
        let n = u8::from(*self.0);
        match self.0 {
            ClientSessionError::SessionInInvalidState(s) => write!(f, "{n} {}", u8::from(*s)),
            _ => write!(f, "{n}"),
        }
    }
}

impl fmt::Display for Shown<'_, Packet> {
    fn fmt<W: fmt::Write>(&self, f: &mut fmt::Formatter<W>) -> fmt::Result {
        let Packet {
            type_id,
            time,
            stream,
            droppable,
            uncompressed,
            start,
            len,
        } = *self.0;
        let (time, stream) = (time.0, stream.0);
        let (droppable, uncompressed) = (flag(droppable), flag(uncompressed));
        f.write_str("out")?;
        write!(
            f,
            " {type_id} {time} {stream}{droppable}{uncompressed} {start} {len}"
        )
    }
}

impl fmt::Display for Shown<'_, ClientSessionResult> {
    fn fmt<W: fmt::Write>(&self, f: &mut fmt::Formatter<W>) -> fmt::Result {
        match self.0 {
            ClientSessionResult::OutboundResponse(p) => write!(f, "{}", Shown(p)),
            ClientSessionResult::RaisedEvent(_) => f.write_str("event"),
            ClientSessionResult::UnhandleableMessageReceived(_) => f.write_str("unhandled"),
        }
    }
}

impl fmt::Display for Shown<'_, Result<Outcome, ClientSessionError>> {
    fn fmt<W: fmt::Write>(&self, f: &mut fmt::Formatter<W>) -> fmt::Result {
        match self.0 {
            Err(e) => {
                f.write_str("refused")?;
                write!(f, " {}", Shown(e))
            }
            Ok(Outcome::Nothing) => f.write_str("none"),
            Ok(Outcome::One(r)) => write!(f, "{}", Shown(r)),
            Ok(Outcome::Two(_, _)) => f.write_str("two"),
            Ok(Outcome::Accepted(_, _)) => f.write_str("accepted"),
            Ok(Outcome::Pinged(p, time)) => write!(f, "pinged {} {}", time.0, Shown(p)),
        }
    }
}

// A text's bytes, `.` where there are none; of one that is too long its length.
impl fmt::Display for Shown<'_, Text> {
    fn fmt<W: fmt::Write>(&self, f: &mut fmt::Formatter<W>) -> fmt::Result {
        let Text { len, bytes } = self.0;
        match bytes.get(..*len) {
            None => write!(f, "over {len}"),
            Some([]) => f.write_str("."),
            Some(s) => write!(f, "{}", Hex(s)),
        }
    }
}

// The word goes out with the spaces around it.
impl fmt::Display for Shown<'_, OutstandingTransaction> {
    fn fmt<W: fmt::Write>(&self, f: &mut fmt::Formatter<W>) -> fmt::Result {
        f.write_str(match self.0 {
            OutstandingTransaction::ConnectionRequested => " connect ",
            OutstandingTransaction::CreateStream(TransactionPurpose::PlayRequest) => " play ",
            OutstandingTransaction::CreateStream(TransactionPurpose::PublishRequest(t)) => {
                match t {
                    PublishRequestType::Live => " live ",
                    PublishRequestType::Record => " record ",
                    PublishRequestType::Append => " append ",
                }
            }
        })
    }
}

// The number of the request at a place; None where the place is free.
fn number_at(places: &[Place; 8], i: usize) -> Option<u32> {
    let (number, _) = places.get(i)?.request?;
    Some(number.0)
}

// The open requests, in the order of their numbers; `-` where none is open.
impl fmt::Display for Shown<'_, [Place; 8]> {
    fn fmt<W: fmt::Write>(&self, f: &mut fmt::Formatter<W>) -> fmt::Result {
        let places = self.0;
        let mut indices = [0usize, 1, 2, 3, 4, 5, 6, 7];
        // Of equal numbers the earlier place comes first; a free place comes before all, and isn't shown.
        indices.sort_unstable_by_key(|i| (number_at(places, *i), *i));
        let mut is_none = true;
        for place in indices.iter().filter_map(|i| places.get(*i)) {
            if let Some((number, transaction)) = place.request {
                if !is_none {
                    f.write_str(", ")?;
                }
                is_none = false;
                let text = Shown(&place.text);
                write!(f, "{}{}{text}", number.0, Shown(&transaction))?;
            }
        }
        if is_none {
            return f.write_str("-");
        }
        Ok(())
    }
}

// Stage, active stream and next number; the open requests; the link.
impl fmt::Display for Shown<'_, ClientSession> {
    fn fmt<W: fmt::Write>(&self, f: &mut fmt::Formatter<W>) -> fmt::Result {
        let session = self.0;
        write!(
            f,
            "{}{} {}\t{}\t{}{} {} {}",
            u8::from(session.progress.state),
            OrDash(session.progress.active.map(|stream| stream.0)),
            session.requests.next,
            Shown(&session.requests.places),
            session.link.chunk,
            OrDash(session.link.window),
            session.link.pending,
            session.link.total
        )
    }
}

impl fmt::Display for Settings<'_> {
    fn fmt<W: fmt::Write>(&self, f: &mut fmt::Formatter<W>) -> fmt::Result {
        let config = &self.0.config;
        let url = config.tc_url.as_ref().map(Shown);
        write!(
            f,
            "{} {} {} {} {}",
            Shown(&config.flash_version),
            config.playback_buffer_length_ms,
            config.window_ack_size,
            config.chunk_size,
            OrWord(url, "-")
        )
    }
}
