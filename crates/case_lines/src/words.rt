// A value that may be missing, printed.
use std::fmt;

// Prints the value, or the word where there is none.
#[derive(Debug, PartialEq, Eq, Clone, Copy)]
pub struct OrWord<'a, T>(pub Option<T>, pub &'a str);

impl<T: fmt::Display> fmt::Display for OrWord<'_, T> {
    fn fmt<W: fmt::Write>(&self, f: &mut fmt::Formatter<W>) -> fmt::Result {
        match &self.0 {
            Some(x) => x.fmt(f),
            None => f.write_str(self.1),
        }
    }
}

// Prints a space and the value, or ` -` in one piece where there is none.
#[derive(Debug, PartialEq, Eq, Clone, Copy)]
pub struct OrDash<T>(pub Option<T>);

impl<T: fmt::Display> fmt::Display for OrDash<T> {
    fn fmt<W: fmt::Write>(&self, f: &mut fmt::Formatter<W>) -> fmt::Result {
        match &self.0 {
            Some(x) => write!(f, " {x}"),
            None => f.write_str(" -"),
        }
    }
}
