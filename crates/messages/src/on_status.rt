// The code of a notice: an onStatus message with a code.
ghost use Rattle.std.specs.Prelude.{◌≡◌, drop};
ghost use Rattle.messages.specs.Notice.{code_at};

use octets::Span;

#[derive(Clone, Copy, Debug, PartialEq, Eq)]
pub enum OnStatus {
    // NetStream.Play.Start
    PlayStart,
    // NetStream.Publish.Start
    PublishStart,
    // another code, with the place of its bytes
    Other(Span),
}

// The code in the value at `at`; none if it is no object with a text `code`.
#[tactic(auto, unfolding(crate::specs::Notice::code_of, crate::specs::Notice::code_is))]
pub fn on_status_code(body: &[u8], at: usize) -> Option<OnStatus>
    ensures { result ≡ code_at body.now (drop at body.now) }
{
    let place = amf0::text_at(body, at, b"code")?;
    if octets::part_is(body, place.start, place.len, b"NetStream.Play.Start") {
        return Some(OnStatus::PlayStart);
    }
    if octets::part_is(body, place.start, place.len, b"NetStream.Publish.Start") {
        return Some(OnStatus::PublishStart);
    }
    Some(OnStatus::Other(place))
}
