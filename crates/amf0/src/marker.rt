// The byte that a value begins with.
ghost use Rattle.std.specs.Prelude.{◌≡◌, drop};
ghost use Rattle.amf0.specs.Decode.{marker_of, marker};
ghost use Rattle.amf0.specs.Places.{outcome};

use super::read::{Malformed, byte};

#[derive(Clone, Copy, Debug, PartialEq, Eq)]
pub enum Marker {
    Number,
    Boolean,
    Text,
    Object,
    Null,
    Undefined,
    EcmaArray,
    StrictArray,
}

impl TryFrom<u8> for Marker {
    type Error = Malformed;

    ghost try_from_gives = { λ m r. r ≡ marker_of m };

    #[tactic(auto, unfolding(crate::specs::Decode::marker_of))]
    fn try_from(m: u8) -> Result<Self, Malformed> {
        match m {
            0x00 => Ok(Marker::Number),
            0x01 => Ok(Marker::Boolean),
            0x02 => Ok(Marker::Text),
            0x03 => Ok(Marker::Object),
            0x05 => Ok(Marker::Null),
            0x06 => Ok(Marker::Undefined),
            0x08 => Ok(Marker::EcmaArray),
            0x0a => Ok(Marker::StrictArray),
            _ => Err(Malformed),
        }
    }
}

// The marker at `at`.
pub fn marker_at(s: &[u8], at: usize) -> Result<Marker, Malformed>
    ensures { result ≡ outcome (marker (drop at s.now)) }
{
    Marker::try_from(byte(s, at)?)
}
