// A script's line carried out: the call of the session that it asks for.
#![tactic(auto)]

mod making;
mod media;
mod opening;
mod running;
mod told;

pub use running::run_line;
pub use told::{Came, Ran};
