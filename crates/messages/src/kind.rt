// What the kind of a value tells, where an argument is due.
ghost use Rattle.std.specs.Prelude.{◌≡◌};
ghost use Rattle.messages.specs.Steps.{argument_kind};

use crate::rtmp_message::Argument;
use amf0::Kind;

impl From<Kind> for Argument {
    ghost from_gives = { λ k a. a ≡ argument_kind k };

    fn from(kind: Kind) -> Argument {
        match kind {
            Kind::Number(bits) => Argument::Number(bits),
            Kind::Object => Argument::Object,
            _ => Argument::Other,
        }
    }
}
