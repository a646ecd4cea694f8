// Why a call was turned away, and its number in document 01's table.
ghost use Rattle.std.specs.Prelude.{◌≡◌};
ghost use Rattle.session.specs.Comes.{take_refusal};
ghost use Rattle.session.specs.Numbers.{refusal_number};
ghost use Rattle.session.specs.declared.errors.ClientSessionError.TheVariants.{MalformedBody as malformed_body, Space as space};

use crate::state::ClientState;
use amf0::Malformed;
use octets::NoSpace;
use requests::TakeError;

#[derive(Clone, Copy, Debug, PartialEq, Eq)]
pub enum ClientSessionError {
    // 1
    CantConnectWhileAlreadyConnected,
    // 2
    SessionInInvalidState(ClientState),
    // 3
    NoKnownActiveStreamIdWhenRequired,
    // 4
    CreateStreamFailed,
    // 5
    CreateStreamResponseHadNoStreamNumber,
    // 6
    InvalidOnStatusArguments,
    // 7
    InvalidMaxChunkSize,
    // 8: the body doesn't follow its layout
    MalformedBody,
    // 9: a caller's text over 255 bytes or not UTF-8; a body over 16,777,215 bytes
    Length,
    // 10
    EightOpen,
    // 11: the numbers are spent
    Spent,
    // 12: the lent output is shorter than all bodies of the outcome together
    Space,
    // 13
    NotASession,
}

// The number in the table of turned-away calls.
impl From<ClientSessionError> for u8 {
    ghost from_gives = { λ e n. n ≡ refusal_number e };

    fn from(error: ClientSessionError) -> u8 {
        match error {
            ClientSessionError::CantConnectWhileAlreadyConnected => 1,
            ClientSessionError::SessionInInvalidState(_) => 2,
            ClientSessionError::NoKnownActiveStreamIdWhenRequired => 3,
            ClientSessionError::CreateStreamFailed => 4,
            ClientSessionError::CreateStreamResponseHadNoStreamNumber => 5,
            ClientSessionError::InvalidOnStatusArguments => 6,
            ClientSessionError::InvalidMaxChunkSize => 7,
            ClientSessionError::MalformedBody => 8,
            ClientSessionError::Length => 9,
            ClientSessionError::EightOpen => 10,
            ClientSessionError::Spent => 11,
            ClientSessionError::Space => 12,
            ClientSessionError::NotASession => 13,
        }
    }
}

impl From<Malformed> for ClientSessionError {
    ghost from_gives = { λ m e. e ≡ malformed_body };

    fn from(_malformed: Malformed) -> ClientSessionError {
        Self::MalformedBody
    }
}

impl From<TakeError> for ClientSessionError {
    ghost from_gives = { λ t e. e ≡ take_refusal t };

    fn from(error: TakeError) -> ClientSessionError {
        match error {
            TakeError::Spent => ClientSessionError::Spent,
            TakeError::EightOpen => ClientSessionError::EightOpen,
        }
    }
}

impl From<NoSpace> for ClientSessionError {
    ghost from_gives = { λ n e. e ≡ space };

    fn from(_no_space: NoSpace) -> ClientSessionError {
        Self::Space
    }
}
