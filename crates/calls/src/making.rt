// Records made by hand: a field of a line sets a part of one, from bytes that vectors/calls.py describes.
use case_lines::Given;
use messages::{PublishRequestType, StreamNumber, TransactionNumber};
use requests::{OutstandingTransaction, Place, Requests, Text, TransactionPurpose};
use session::{ClientSession, ClientSessionConfig, ClientState, Link, Progress};

// The default settings, and nothing asked yet.
pub fn fresh() -> ClientSession {
    ClientSession {
        config: ClientSessionConfig::new(),
        progress: Progress {
            state: ClientState::Disconnected,
            active: None,
        },
        requests: Requests::new(),
        link: Link {
            chunk: 128,
            window: None,
            pending: 0,
            total: 0,
        },
    }
}

// A length of 8 bytes, which may be any, and the text's bytes.
fn text(mut given: Given<'_>) -> Text {
    let len = given.long().unwrap_or(0) as usize;
    Text {
        len,
        ..Text::new(given.rest())
    }
}

fn stage(b: u8) -> ClientState {
    match b {
        0 => ClientState::Disconnected,
        1 => ClientState::Connected,
        2 => ClientState::PlayRequested,
        3 => ClientState::Playing,
        4 => ClientState::PublishRequested,
        _ => ClientState::Publishing,
    }
}

// A byte that says whether there is one, and a number of 4 bytes.
fn optional(given: &mut Given<'_>) -> Option<u32> {
    let is_there = given.byte().unwrap_or(0) != 0;
    let n = given.number().unwrap_or(0);
    is_there.then_some(n)
}

fn stream(publish_type: PublishRequestType) -> OutstandingTransaction {
    OutstandingTransaction::CreateStream(TransactionPurpose::PublishRequest(publish_type))
}

fn request(kind: u8, n: u32) -> Option<(TransactionNumber, OutstandingTransaction)> {
    let transaction = match kind {
        1 => OutstandingTransaction::ConnectionRequested,
        2 => OutstandingTransaction::CreateStream(TransactionPurpose::PlayRequest),
        3 => stream(PublishRequestType::Live),
        4 => stream(PublishRequestType::Record),
        5 => stream(PublishRequestType::Append),
        _ => return None,
    };
    Some((TransactionNumber(n), transaction))
}

fn config(config: &mut ClientSessionConfig, mut given: Given<'_>) {
    config.playback_buffer_length_ms = given.number().unwrap_or(0);
    config.window_ack_size = given.number().unwrap_or(0);
    config.chunk_size = given.number().unwrap_or(0);
}

fn progress(mut given: Given<'_>) -> Progress {
    Progress {
        state: stage(given.byte().unwrap_or(0)),
        active: optional(&mut given).map(StreamNumber),
    }
}

fn place(places: &mut [Place; 8], mut given: Given<'_>) {
    let i = usize::from(given.byte().unwrap_or(0) % 8);
    let kind = given.byte().unwrap_or(0);
    let n = given.number().unwrap_or(0);
    places[i] = Place {
        request: request(kind, n),
        text: text(given),
    };
}

fn link(mut given: Given<'_>) -> Link {
    Link {
        chunk: given.number().unwrap_or(0),
        window: optional(&mut given),
        pending: given.number().unwrap_or(0),
        total: given.long().unwrap_or(0),
    }
}

// Sets the part of the record that the field's letter names. Of any other letter it answers false.
pub fn set(letter: u8, session: &mut ClientSession, mut given: Given<'_>) -> bool {
    match letter {
        b'f' => session.config.flash_version = text(given),
        b'u' => {
            let is_there = given.byte() == Some(1);
            session.config.tc_url = is_there.then_some(text(given));
        }
        b's' => config(&mut session.config, given),
        b'g' => session.progress = progress(given),
        b'n' => session.requests.next = given.long().unwrap_or(0),
        b'p' => place(&mut session.requests.places, given),
        b'l' => session.link = link(given),
        _ => return false,
    }
    true
}
