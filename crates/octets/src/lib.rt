// Bytes: numbers read from a slice and put into a lent output, parts of a slice, comparing, UTF-8.
#![tactic(auto)]

mod big_endian;
mod compare;
mod output;
mod span;
mod utf8;

pub use big_endian::{read_be16, read_be24, read_be32, read_be64};
pub use compare::{part, part_is, same};
pub use output::{NoSpace, Writer, write_bytes};
pub use span::Span;
pub use utf8::is_utf8;
