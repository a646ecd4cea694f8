// One of the eight places, and the searches through all of them.
ghost use Rattle.std.specs.Prelude.{◌≡◌, ◌≤◌, ◌<◌, length, MatchOption};
ghost use Rattle.std.specs.Option.{is_none};
ghost use Rattle.requests.specs.Places.{empty_place, open_as, held_by, lookup, without as without_of, free_place, has_number, place_sound, places_sound, all_free};

use crate::outstanding_transaction::OutstandingTransaction;
use crate::text::Text;
use messages::TransactionNumber;

// What stands in the text of a free place never matters. It stands beside the request and not in it: a closed place's text is emptied, as stream
// keys are secrets, and of bytes inside a None nothing could be said.
#[derive(Debug, PartialEq, Eq, Clone, Copy)]
pub struct Place {
    pub request: Option<(TransactionNumber, OutstandingTransaction)>,
    pub text: Text,
}

// An open request but for its number: what it was sent for, and its text.
#[derive(Debug, PartialEq, Eq, Clone, Copy)]
pub struct Request {
    pub kind: OutstandingTransaction,
    pub text: Text,
}

impl Place {
    // A place with no request.
    pub(crate) fn empty() -> Place
        ensures { result ≡ empty_place }
    {
        Place {
            request: None,
            text: Text::new(b""),
        }
    }

    // Whether the place is open under the number.
    fn is_open_as(&self, number: TransactionNumber) -> bool
        ensures { result ≡ open_as number.0 self.now.request }
    {
        matches!(self.request, Some((open, _)) if open == number)
    }

    // The request, if the place is open under the number.
    fn request_under(&self, number: TransactionNumber) -> Option<Request>
        ensures { result ≡ held_by number.0 self.now.request self.now.text None }
    {
        match self.request {
            Some((open, kind)) if open == number => Some(Request {
                kind,
                text: self.text,
            }),
            _ => None,
        }
    }

    // Whether a place is such as a session has, beside those after it.
    fn sound(&self, others: &[Place], next: u64) -> bool
        ensures { result ≡ place_sound next self.now.request self.now.text others.now }
    {
        let Some((number, _)) = self.request else {
            return true;
        };
        0 < number.0
            && u64::from(number.0) < next
            && !has_number(others, number)
            && self.text.sound()
    }
}

// The first place that is free.
pub fn first_free(places: &[Place]) -> Option<usize>
    ensures { MatchOption result (length places.now ≤ free_place places.now) (λ at. (at ≡ free_place places.now) × (at < length places.now)) }
{
    places.iter().position(|place| place.request.is_none())
}

// The request that is open under the number, the first if there are several.
pub fn find(places: &[Place], number: TransactionNumber) -> Option<Request>
    ensures { result ≡ lookup number.0 places.now }
{
    places.iter().find_map(|place| place.request_under(number))
}

// Whether some place is open under the number.
fn has_number(places: &[Place], number: TransactionNumber) -> bool
    ensures { result ≡ has_number number.0 places.now }
{
    places.iter().any(|place| place.is_open_as(number))
}

// Empties the places that are open under the number.
pub fn close(places: &mut [Place], number: TransactionNumber)
    ensures { places.new ≡ without_of number.0 places.old }
{
    for place in places.iter_mut() {
        if place.is_open_as(number) {
            *place = Place::empty();
        }
    }
}

// Whether the places are such as a session has, each looked at beside those after it.
fn each_sound(places: &[Place], next: u64) -> bool
    ensures { result ≡ places_sound next places.now }
{
    for (i, place) in places.iter().enumerate() {
        if !place.sound(&places[i + 1..], next) {
            return false;
        }
    }
    true
}

// Whether no request is open.
pub fn all_free(places: &[Place]) -> bool
    ensures { result ≡ all_free places.now }
{
    places.iter().all(|place| place.request.is_none())
}

// The same as each_sound. Most sessions have no request open, and then no text is looked at.
pub fn places_sound(places: &[Place], next: u64) -> bool
    ensures { result ≡ places_sound next places.now }
{
    all_free(places) || each_sound(places, next)
}
