// A cursor over the bytes of a case.
ghost use Rattle.std.specs.Prelude.{◌≡◌, ◌↔◌, ◌<◌, ◌≤◌, length, take, drop, slice_index, IsSome, MatchOption};
ghost use Rattle.std.specs.Int.{w16, w32, w64, from_be_bytes};
ghost use Rattle.case_lines.specs.Cursor.{left};

// The bytes that are left. A read past the end is `None` and takes all of them, so that every later read is `None` too.
#[derive(Debug, PartialEq, Eq, Clone, Copy)]
pub struct Given<'a> {
    left: &'a [u8],
}

impl<'a> Given<'a> {
    pub fn new(bytes: &'a [u8]) -> Given<'a>
        ensures { left result ≡ bytes.now }
    {
        Given { left: bytes }
    }

    pub fn array<const N: usize>(&mut self) -> Option<[u8; N]>
        ensures there { IsSome result ↔ (N ≤ length (left self.old)) }
        ensures value { MatchOption result (length (left self.old) < N) (λ a. a ≡ take N (left self.old)) }
        ensures rest { left self.new ≡ drop N (left self.old) }
    {
        let Some((first, left)) = self.left.split_first_chunk::<N>() else {
            self.left = &[];
            return None;
        };
        self.left = left;
        Some(*first)
    }

    pub fn byte(&mut self) -> Option<u8>
        ensures there { IsSome result ↔ (1 ≤ length (left self.old)) }
        ensures value { MatchOption result (length (left self.old) < 1) (λ n. n ≡ slice_index (take 1 (left self.old)) 0) }
        ensures rest { left self.new ≡ drop 1 (left self.old) }
    {
        self.array().map(u8::from_be_bytes)
    }

    // Numbers of 2, 4 and 8 bytes, the most significant first.
    pub fn short(&mut self) -> Option<u16>
        ensures there { IsSome result ↔ (2 ≤ length (left self.old)) }
        ensures value { MatchOption result (length (left self.old) < 2) (λ n. n ≡ from_be_bytes w16 (take 2 (left self.old))) }
        ensures rest { left self.new ≡ drop 2 (left self.old) }
    {
        self.array().map(u16::from_be_bytes)
    }

    pub fn number(&mut self) -> Option<u32>
        ensures there { IsSome result ↔ (4 ≤ length (left self.old)) }
        ensures value { MatchOption result (length (left self.old) < 4) (λ n. n ≡ from_be_bytes w32 (take 4 (left self.old))) }
        ensures rest { left self.new ≡ drop 4 (left self.old) }
    {
        self.array().map(u32::from_be_bytes)
    }

    pub fn long(&mut self) -> Option<u64>
        ensures there { IsSome result ↔ (8 ≤ length (left self.old)) }
        ensures value { MatchOption result (length (left self.old) < 8) (λ n. n ≡ from_be_bytes w64 (take 8 (left self.old))) }
        ensures rest { left self.new ≡ drop 8 (left self.old) }
    {
        self.array().map(u64::from_be_bytes)
    }

    // The next `most` bytes, or all that are left.
    pub fn up_to(&mut self, most: usize) -> &'a [u8]
        ensures fits { length result.now ≤ most }
        ensures value { result.now ≡ take most (left self.old) }
        ensures rest { left self.new ≡ drop most (left self.old) }
    {
        let (first, left) = self.left.split_at(most.min(self.left.len()));
        self.left = left;
        first
    }

    pub fn rest(&self) -> &'a [u8]
        ensures { result.now ≡ left self.now }
    {
        self.left
    }
}
