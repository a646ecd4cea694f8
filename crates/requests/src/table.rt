// The table of open requests, and the number that is due next.
ghost use Rattle.std.specs.Prelude.{◌≡◌};
ghost use Rattle.requests.specs.Table.{next_sound, requests_sound, none as none_of, take_of, close_of};

use crate::outstanding_transaction::OutstandingTransaction;
use crate::place::{Place, Request, close, find, first_free, places_sound};
use crate::text::Text;
use messages::TransactionNumber;

#[derive(Debug, PartialEq, Eq, Clone, Copy)]
pub struct Requests {
    pub next: u64,
    pub places: [Place; 8],
}

// Why no request was taken.
#[derive(Debug, PartialEq, Eq, Clone, Copy)]
pub enum TakeError {
    // refusal 11
    Spent,
    // refusal 10
    EightOpen,
}

impl Requests {
    // No request open, and 1 the next number.
    pub fn new() -> Requests
        ensures { result ≡ none_of }
    {
        Requests {
            next: 1,
            places: [Place::empty(); 8],
        }
    }

    // Whether the next number is such as a session has. 4,294,967,296 is none that can be given: then all are spent.
    pub fn next_sound(&self) -> bool
        ensures { result ≡ next_sound self.now }
    {
        0 < self.next && self.next <= 4294967296
    }

    // Whether the numbers and texts are such as a session has: else refusal 13.
    pub fn sound(&self) -> bool
        ensures { result ≡ requests_sound self.now }
    {
        self.next_sound() && places_sound(&self.places, self.next)
    }

    // Takes the next number and a place for a request with that text, which has at most 255 bytes.
    pub fn take(
        &mut self,
        kind: OutstandingTransaction,
        text: &[u8],
    ) -> Result<TransactionNumber, TakeError>
        ensures { record { answer = result; requests = self.new } ≡ take_of self.old kind text.now }
    {
        if 4294967296 <= self.next {
            return Err(TakeError::Spent);
        }
        let Some(at) = first_free(&self.places) else {
            return Err(TakeError::EightOpen);
        };
        let number = TransactionNumber(self.next as u32);
        self.places[at] = Place {
            request: Some((number, kind)),
            text: Text::new(text),
        };
        self.next += 1;
        Ok(number)
    }

    // Closes the request under that number, which empties its place.
    pub fn close(&mut self, number: TransactionNumber) -> Option<Request>
        ensures { record { request = result; requests = self.new } ≡ close_of self.old number }
    {
        let found = find(&self.places, number)?;
        close(&mut self.places, number);
        Some(found)
    }
}
