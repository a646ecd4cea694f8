// Bodies that a client sends, written into a lent output and shown.
ghost use Rattle.std.specs.Prelude.{◌≤◌, length, IfSome};
ghost use Rattle.amf0.specs.Places.{stretch};

use case_lines::{Given, Hex, OrWord};
use messages::{RtmpTimestamp, StreamMetadata, StreamNumber, TransactionNumber};
use octets::{NoSpace, Span};
use std::io;
use std::io::Write;

// A text that a call may be given: none of more than 255 bytes.
fn text(s: &[u8]) -> Option<&[u8]>
    ensures { IfSome result (λ t. length t.now ≤ 255) }
{
    (s.len() <= 255).then_some(s)
}

// The number, then two bytes with the lengths of app and flash version, one that says whether a tcUrl is configured; then the three texts.
fn connect(mut given: Given<'_>, out: &mut [u8]) -> Option<Result<usize, NoSpace>> {
    let number = TransactionNumber(given.number().unwrap_or(0));
    let app_len = usize::from(given.byte().unwrap_or(0));
    let flash_len = usize::from(given.byte().unwrap_or(0));
    let has_url = given.byte() == Some(1);
    let app = given.up_to(app_len);
    let flash = given.up_to(flash_len);
    let url = text(given.rest())?;
    let url = has_url.then_some(url);
    Some(bodies::write_connect(out, number, app, flash, url))
}

fn play(mut given: Given<'_>, out: &mut [u8]) -> Option<Result<usize, NoSpace>> {
    let stream = StreamNumber(given.number().unwrap_or(0));
    let buffer_ms = given.number().unwrap_or(0);
    let key = text(given.rest())?;
    Some(bodies::write_play(out, stream, buffer_ms, key))
}

fn publish(mut given: Given<'_>, out: &mut [u8]) -> Option<Result<usize, NoSpace>> {
    let publish_type = case_lines::publish_type(given.byte().unwrap_or(0));
    let key = text(given.rest())?;
    Some(bodies::write_publish(out, key, publish_type))
}

// The encoder's text is what stands behind the other fields, at most 255 bytes of it.
fn encoder(is_there: bool, s: &[u8]) -> Option<Span>
    ensures { length (stretch s.now result) ≤ 255 }
{
    is_there.then_some(Span { start: 0, len: 255 })
}

fn metadata(mut given: Given<'_>, out: &mut [u8]) -> Result<usize, NoSpace> {
    let (others, has_encoder) = case_lines::metadata(&mut given);
    let s = given.rest();
    let encoder = encoder(has_encoder, s);
    bodies::write_metadata(out, StreamMetadata { encoder, ..others }, s)
}

// One of the bodies that hold no text.
fn short(which: u8, mut given: Given<'_>, out: &mut [u8]) -> Result<usize, NoSpace> {
    let n = given.number().unwrap_or(0);
    match which {
        2 => bodies::write_create_stream(out, TransactionNumber(n)),
        3 => bodies::write_delete_stream(out, StreamNumber(n)),
        6 => bodies::write_ping_request(out, RtmpTimestamp(n)),
        7 => bodies::write_ping_response(out, RtmpTimestamp(n)),
        8 => bodies::write_acknowledgement(out, n),
        _ => bodies::write_sizes(out, n, given.number().unwrap_or(0)),
    }
}

// The first byte says which body: 1 connect, 2 createStream, 3 deleteStream, 4 SetBufferLength and play, 5 publish, 6 and 7 ping request and
// response, 8 acknowledgement, 9 window and chunk size, 10 metadata.
fn body(bytes: &[u8], out: &mut [u8]) -> Option<Result<usize, NoSpace>> {
    let mut given = Given::new(bytes);
    match given.byte().unwrap_or(0) {
        1 => connect(given, out),
        4 => play(given, out),
        5 => publish(given, out),
        10 => Some(metadata(given, out)),
        which => Some(short(which, given, out)),
    }
}

pub fn case<W: Write>(to: &mut W, given: &[u8], out: &mut [u8]) -> io::Result<()> {
    let Some(answer) = body(given, out) else {
        return Ok(());
    };
    let shown = answer.ok().map(|n| Hex(octets::part(out, 0, n)));
    write!(to, "{}", OrWord(shown, "no space"))
}
