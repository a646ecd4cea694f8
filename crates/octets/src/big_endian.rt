// Big-endian numbers at a place of a slice. The readers take `(s, at)`, as document 01 asks for a "slice-and-number core".
ghost use Rattle.std.specs.Prelude.{◌≡◌, ◌<◌, drop, MatchOption};
ghost use Rattle.octets.specs.BigEndian.{uint, read_as};
ghost use Rattle.octets.specs.Parse.{bad, got, field};

// N bytes that stand whole at `at`.
fn bytes_at<const N: usize>(s: &[u8], at: usize) -> Option<[u8; N]>
    requires { 0 < N }
    ensures { let rest = drop at s.now in MatchOption result (field N rest ≡ bad) (λ bytes. field N rest ≡ got bytes (drop N rest)) }
{
    s.get(at..)?.first_chunk::<N>().copied()
}

pub fn read_be16(s: &[u8], at: usize) -> Option<u16>
    ensures { result ≡ read_as None Some (uint 2 (drop at s.now)) }
{
    Some(u16::from_be_bytes(bytes_at(s, at)?))
}

pub fn read_be24(s: &[u8], at: usize) -> Option<u32>
    ensures { result ≡ read_as None Some (uint 3 (drop at s.now)) }
{
    let [a, b, c]: [u8; 3] = bytes_at(s, at)?;
    Some(u32::from_be_bytes([0, a, b, c]))
}

pub fn read_be32(s: &[u8], at: usize) -> Option<u32>
    ensures { result ≡ read_as None Some (uint 4 (drop at s.now)) }
{
    Some(u32::from_be_bytes(bytes_at(s, at)?))
}

pub fn read_be64(s: &[u8], at: usize) -> Option<u64>
    ensures { result ≡ read_as None Some (uint 8 (drop at s.now)) }
{
    Some(u64::from_be_bytes(bytes_at(s, at)?))
}
