// The lines that tell results, and what is said of lines that can't be read.
#![tactic(auto)]

mod hex;
mod line;
mod output;
mod reasons;
mod results;

pub use hex::write_hex;
pub use line::Line;
pub use output::write_at;
pub use reasons::complaint;
pub use results::Head;
