// Parts of a slice, and byte strings compared.
ghost use Rattle.std.specs.Prelude.{◌≡◌};
ghost use Rattle.octets.specs.Compare.{same as same_of, part as part_of};

// The part of s that starts at `start` and has `len` bytes, or those of them that are there.
pub fn part(s: &[u8], start: usize, len: usize) -> &[u8]
    ensures { result.now ≡ part_of s.now start len }
{
    let Some(rest) = s.get(start..) else {
        return &[];
    };
    rest.get(..len).unwrap_or(rest)
}

#[tactic(auto, using(crate::proofs::CompareLaws::equality))]
pub fn same(a: &[u8], b: &[u8]) -> bool
    ensures { result ≡ same_of a.now b.now }
{
    a == b
}

// Whether that part of s is the name.
pub fn part_is(s: &[u8], start: usize, len: usize, name: &[u8]) -> bool
    ensures { result ≡ same_of (part_of s.now start len) name.now }
{
    same(part(s, start, len), name)
}
