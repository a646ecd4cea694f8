// Bodies of types 18 and 15.
ghost use Rattle.std.specs.Prelude.{◌≡◌};
ghost use Rattle.messages.specs.Incoming.{data_of, whole, values};
ghost use Rattle.messages.specs.Places.{if_object, placed};
ghost use Rattle.messages.specs.Steps.{argument_told, names_meta_data};

use crate::rtmp_message::{DataMessage, RtmpMessage};
use amf0::{Kind, Malformed};
use reader::Reader;

// Whether what was read is the text `onMetaData`.
fn is_on_meta_data(body: &[u8], value: Result<Kind, Malformed>) -> bool
    ensures { result ≡ names_meta_data body.now value }
{
    match value {
        Ok(Kind::Text(place)) => octets::part_is(body, place.start, place.len, b"onMetaData"),
        _ => false,
    }
}

// What was read at `place` follows `onMetaData`.
fn if_object(place: usize, value: Result<Kind, Malformed>) -> DataMessage
    ensures { result ≡ if_object place (argument_told value) }
{
    match value {
        Ok(Kind::Object) => DataMessage::OnMetaData(place),
        _ => DataMessage::Other,
    }
}

pub fn amf0_data(body: &[u8]) -> Result<RtmpMessage, Malformed>
    ensures { result ≡ placed body.now (whole values (data_of body.now)) }
{
    let mut reader = Reader::new(body, 0);
    let first = reader.read_value();
    let place = reader.at;
    let second = reader.read_value();
    // the reader stays where it finds no value, so each is counted or was read
    amf0::count_values(body, reader.at)?;
    if is_on_meta_data(body, first) {
        return Ok(RtmpMessage::Amf0Data(if_object(place, second)));
    }
    Ok(RtmpMessage::Amf0Data(DataMessage::Other))
}
