// What the programs `cases` and `calls` share: the input read whole, hexadecimal, a cursor over the bytes of a case, what both read with
// it, and a writer that goes on where a write fails. Beside these, an output that waits in fixed memory.
#![tactic(auto)]

mod cursor;
mod fields;
mod hexadecimal;
mod ignoring;
mod input;
mod waiting;
mod words;

pub use cursor::Given;
pub use fields::{metadata, publish_type};
pub use hexadecimal::{Digits, Hex, decode};
pub use ignoring::IgnoreErrors;
pub use input::read_full;
pub use waiting::Output;
pub use words::{OrDash, OrWord};
