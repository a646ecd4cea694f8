// Bodies of types 20 and 17.
ghost use Rattle.std.specs.Prelude.{◌≡◌, drop};
ghost use Rattle.octets.specs.Compare.{part};
ghost use Rattle.amf0.specs.Places.{kind_at};
ghost use Rattle.messages.specs.Steps.{argument_told};
ghost use Rattle.messages.specs.Incoming.{command_of, whole, command};
ghost use Rattle.messages.specs.Places.{name_of, placed};

use crate::rtmp_message::{Argument, Command, CommandName, RtmpMessage};
use amf0::Malformed;
use octets::Span;
use reader::Reader;

// The name that stands in the body at that place.
#[tactic(auto, unfolding(crate::specs::Places::name_of))]
fn command_name(body: &[u8], place: Span) -> CommandName
    ensures { result ≡ name_of (part body.now place.start place.len) }
{
    let Span { start, len } = place;
    if octets::part_is(body, start, len, b"_result") {
        return CommandName::Result;
    }
    if octets::part_is(body, start, len, b"_error") {
        return CommandName::Error;
    }
    if octets::part_is(body, start, len, b"onStatus") {
        return CommandName::OnStatus;
    }
    CommandName::Other
}

// What the value at `at` is as an argument, if there is one.
fn argument_at(body: &[u8], at: usize) -> Option<Argument>
    ensures { result ≡ argument_told (kind_at body.now (drop at body.now)) }
{
    amf0::kind_at(body, at).ok().map(Argument::from)
}

// The command that stands from `at` to the end of the body.
pub fn amf0_command(body: &[u8], at: usize) -> Result<RtmpMessage, Malformed>
    ensures { result ≡ placed body.now (whole command (command_of (drop at body.now))) }
{
    let mut reader = Reader::new(body, at);
    let name_at = reader.read_value()?.text().ok_or(Malformed)?;
    let number = reader.read_value()?.number().ok_or(Malformed)?;
    let object = reader.at;
    reader.read_value()?;
    let args = reader.at;
    amf0::count_values(body, args)?;
    Ok(RtmpMessage::Amf0Command(Command {
        name: command_name(body, name_at),
        name_at,
        number,
        object,
        args,
        first: argument_at(body, args),
    }))
}
