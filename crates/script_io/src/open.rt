// What is open after a line: the active stream, and the requests that wait for a reply, by their numbers, so that their places don't show.
use crate::output::Output;
use messages::{PublishRequestType, StreamNumber};
use requests::{OutstandingTransaction, Place, TransactionPurpose};
use script_results::Head;
use session::ClientSession;
use std::io;

fn name_of(kind: OutstandingTransaction) -> &'static [u8] {
    match kind {
        OutstandingTransaction::ConnectionRequested => b":connect",
        OutstandingTransaction::CreateStream(TransactionPurpose::PlayRequest) => b":play",
        OutstandingTransaction::CreateStream(TransactionPurpose::PublishRequest(kind)) => {
            match kind {
                PublishRequestType::Live => b":publish:live",
                PublishRequestType::Record => b":publish:record",
                PublishRequestType::Append => b":publish:append",
            }
        }
    }
}

// The number of an open request, and what it asks for.
fn request_in(place: &Place) -> Option<(u32, OutstandingTransaction)> {
    place.request.map(|(number, kind)| (number.0, kind))
}

// The request with the least number above `last`, which is None before the first.
fn next_above(places: &[Place; 8], last: Option<u32>) -> Option<(u32, OutstandingTransaction)> {
    places
        .iter()
        .filter_map(request_in)
        .filter(|request| last < Some(request.0))
        .min_by_key(|request| request.0)
}

impl Output<'_> {
    fn active_stream(&mut self, active: Option<StreamNumber>) -> io::Result<()> {
        match active {
            None => self.put(b"-"),
            Some(stream) => self.number(u64::from(stream.0)),
        }
    }

    // The requests with a comma between them, or `-` where none is open.
    fn open_requests(&mut self, places: &[Place; 8]) -> io::Result<()> {
        let mut last = None;
        for _ in 0..8 {
            let Some((number, kind)) = next_above(places, last) else {
                break;
            };
            if last.is_some() {
                self.put(b",")?;
            }
            self.number(u64::from(number))?;
            self.put(name_of(kind))?;
            last = Some(number);
        }
        if last.is_none() {
            return self.put(b"-");
        }
        Ok(())
    }

    pub(crate) fn open_line(&mut self, head: Head, session: &ClientSession) -> io::Result<()> {
        self.put(head.open().as_slice())?;
        self.active_stream(session.progress.active)?;
        self.put(b"\t")?;
        self.open_requests(&session.requests.places)?;
        self.put(b"\n")
    }
}
