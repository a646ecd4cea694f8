// What a line came to.
ghost use Rattle.std.specs.Prelude.{◌≡◌};
ghost use Rattle.script_run.specs.Asked.{ran, answered};

use script::Why;
use session::{Called, ClientSession, ClientSessionError, Outcome};

#[derive(Clone, Copy, Debug, PartialEq)]
pub enum Came {
    // the line is empty
    Passed,
    // the length of the lent output for the lines after
    Space(u32),
    // what the call that it asks for answers
    Answer(Result<Outcome, ClientSessionError>),
}

// What a line came to, or why it can't be read, and the session after it.
#[derive(Clone, Copy, Debug, PartialEq)]
pub struct Ran {
    pub came: Result<Came, Why>,
    pub session: ClientSession,
}

// A line that makes no call.
pub(crate) fn apart(session: ClientSession, came: Result<Came, Why>) -> Ran
    ensures { result ≡ ran came session }
{
    Ran { came, session }
}

impl From<Called> for Ran {
    ghost from_gives = { λ called ran. ran ≡ answered called };

    fn from(called: Called) -> Ran {
        Ran {
            came: Ok(Came::Answer(called.outcome)),
            session: called.session,
        }
    }
}
