// A script's lines taken apart.
#![tactic(auto)]

mod asked;
mod decimal;
mod fields;
mod hex;
mod lines;
mod media;
mod metadata;
mod named;
mod opening;
mod reasons;
mod verbs;

pub use asked::{Line, Settings};
pub use fields::find;
pub use hex::{UnhexError, unhex};
pub use lines::read_line;
pub use metadata::read_metadata;
pub use reasons::Why;
