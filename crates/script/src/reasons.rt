// Why a line can't be read.
ghost use Rattle.std.specs.Prelude.{◌≡◌};
ghost use Rattle.script.specs.Hex.{why_of};

use crate::hex::UnhexError;

#[derive(Clone, Copy, Debug, PartialEq, Eq)]
pub enum Why {
    Missing,
    Extra,
    Number,
    Hex,
    Verb,
    // of what is published
    Kind,
    // not 0 or 1
    Flag,
    // of metadata
    Name,
    LineLength,
    BodyLength,
}

// A body's digits can't be decoded.
impl From<UnhexError> for Why {
    ghost from_gives = { λ e w. w ≡ why_of e };

    fn from(e: UnhexError) -> Why {
        match e {
            UnhexError::NotHex => Why::Hex,
            UnhexError::NoSpace => Why::BodyLength,
        }
    }
}
