// Places.
ghost use Rattle.std.specs.Prelude.{◌≡◌};
ghost use Rattle.octets.specs.Compare.{part as part_of};

use super::compare::part;

// A place in a slice.
#[derive(Clone, Copy, Debug, PartialEq, Eq)]
pub struct Span {
    pub start: usize,
    pub len: usize,
}

impl Span {
    // What stands there in s, or as much of it as is there.
    pub fn part_of(self, s: &[u8]) -> &[u8]
        ensures { result.now ≡ part_of s.now self.start self.len }
    {
        part(s, self.start, self.len)
    }
}
