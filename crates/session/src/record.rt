// The session record. Anyone may make any value of it: refusal 13 meets those that are no session.
ghost use Rattle.std.specs.Prelude.{◌≡◌, true};
ghost use Rattle.session.specs.Record.{is_session};
ghost use Rattle.session.specs.Comes.{checked};

use crate::config::{ClientSessionConfig, is_short};
use crate::errors::ClientSessionError;
use crate::result::Outcome;
use crate::state::ClientState;
use messages::StreamNumber;
use requests::Requests;

// The stage, and the stream that the latest grant gave.
#[derive(Clone, Copy, Debug, PartialEq, Eq)]
pub struct Progress {
    pub state: ClientState,
    pub active: Option<StreamNumber>,
}

// The peer's chunk size and window; the bytes since the last acknowledgement, and all bytes.
#[derive(Clone, Copy, Debug, PartialEq, Eq)]
pub struct Link {
    pub chunk: u32,
    pub window: Option<u32>,
    pub pending: u32,
    pub total: u64,
}

#[derive(Clone, Copy, Debug, PartialEq, Eq)]
pub struct ClientSession {
    pub config: ClientSessionConfig,
    pub progress: Progress,
    pub requests: Requests,
    pub link: Link,
}

// What a call hands back.
#[derive(Clone, Copy, Debug, PartialEq)]
pub struct Called {
    pub outcome: Result<Outcome, ClientSessionError>,
    pub session: ClientSession,
}

impl ClientSession {
    // Whether refusal 13 doesn't meet the record. It takes a copy: a call then passes on no address of the record, and the
    // compiler needn't move it.
    #[cold]
    #[inline(never)]
    fn is_session(self) -> bool
        ensures { result ≡ is_session self }
    {
        self.config.texts_sound() && self.config.chunk_size <= 2147483647 && self.requests.sound()
    }

    // Whether it is plainly a session, as most are between requests: no array is copied to tell. In a function of its own, as the compiler would
    // else take the record apart in the caller and copy its parts (a byte count takes 170 ns then, and 11 in place of it).
    #[inline(never)]
    fn is_plain(&self) -> bool
        ensures { result ≡ true → is_session self.now ≡ true }
    {
        self.config.tc_url.is_none()
            && self.config.chunk_size <= 2147483647
            && is_short(&self.config.flash_version)
            && self.requests.next_sound()
            && requests::all_free(&self.requests.places)
    }

    // Refusal 13.
    #[inline(always)]
    pub(crate) fn checked(&self) -> Result<(), ClientSessionError>
        ensures { result ≡ checked self.now }
    {
        if self.is_plain() || self.is_session() {
            return Ok(());
        }
        Err(ClientSessionError::NotASession)
    }
}
