// The client session: the record, opening, and the calls, each of which consumes the session and hands back the new one.
#![tactic(auto)]

mod client;
mod config;
mod errors;
mod events;
mod incoming;
mod notices;
mod record;
mod replies;
mod result;
mod sending;
mod state;

pub use config::ClientSessionConfig;
pub use errors::ClientSessionError;
pub use events::ClientSessionEvent;
pub use record::{Called, ClientSession, Link, Progress};
pub use result::{ClientSessionResult, Outcome, Packet};
pub use state::{ClientState, NoStage};
