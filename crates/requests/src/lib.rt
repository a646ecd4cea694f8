// The requests that are open: eight places, each with its number, its kind and its text.
#![tactic(auto)]

mod outstanding_transaction;
mod place;
mod table;
mod text;

pub use outstanding_transaction::{OutstandingTransaction, TransactionPurpose};
pub use place::{Place, Request, all_free};
pub use table::{Requests, TakeError};
pub use text::{Text, fits};
