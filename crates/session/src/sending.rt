// Bodies written from what the session holds, and the packets of what was written.
ghost use Rattle.std.specs.Prelude.{◌≡◌, ◌^◌, ◌<◌, true, length, is_some};
ghost use Rattle.octets.specs.Output.{Written};
ghost use Rattle.amf0.specs.Places.{stretch};
ghost use Rattle.bodies.specs.Bodies.{connect_body};
ghost use Rattle.requests.specs.Texts.{fits, text_of};
ghost use Rattle.session.specs.Record.{texts_sound, url_of};
ghost use Rattle.session.specs.Comes.{packet_of};

use crate::config::ClientSessionConfig;
use crate::result::{ClientSessionResult, Outcome, Packet};
use messages::{RtmpTimestamp, StreamNumber, TransactionNumber};
use octets::{NoSpace, Span};

// A message whose body starts at output byte 0.
pub(crate) fn packet(
    type_id: u8,
    time: RtmpTimestamp,
    stream: StreamNumber,
    droppable: bool,
    len: usize,
) -> Packet
    ensures { result ≡ packet_of type_id time stream droppable len }
{
    Packet {
        type_id,
        time,
        stream,
        droppable,
        uncompressed: false,
        start: 0,
        len,
    }
}

// That message alone.
pub(crate) fn sent(
    type_id: u8,
    time: RtmpTimestamp,
    stream: StreamNumber,
    droppable: bool,
    len: usize,
) -> Outcome
    ensures { result ≡ Outcome.One (ClientSessionResult.OutboundResponse (packet_of type_id time stream droppable len)) }
{
    let packet = packet(type_id, time, stream, droppable, len);
    Outcome::One(ClientSessionResult::OutboundResponse(packet))
}

// Whether refusal 9 doesn't meet the encoder's text, which lies in `text`.
pub(crate) fn encoder_fits(encoder: Option<Span>, text: &[u8]) -> bool
    ensures { result ≡ fits (stretch text.now encoder) }
{
    match encoder {
        None => true,
        Some(place) => requests::fits(place.part_of(text)),
    }
}

// The connect body with the settings' texts.
pub(crate) fn connect(
    config: &ClientSessionConfig,
    number: TransactionNumber,
    app: &[u8],
    out: &mut [u8],
) -> Result<usize, NoSpace>
    requires sound { texts_sound config.now ≡ true }
    requires app_short { length app.now < 2 ^ 16 }
    ensures { Written out.old (connect_body number.0 app.now (text_of config.now.flash_version) (is_some config.now.tc_url) (url_of config.now.tc_url)) out.new result }
{
    let flash = config.flash_version.as_slice();
    match &config.tc_url {
        None => bodies::write_connect(out, number, app, flash, None),
        Some(url) => bodies::write_connect(out, number, app, flash, Some(url.as_slice())),
    }
}
