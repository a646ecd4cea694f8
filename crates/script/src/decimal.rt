// Decimal numbers.
ghost use Rattle.std.specs.Prelude.{◌≡◌};
ghost use Rattle.script.specs.Decimal.{decimal_of};

// The number that s writes, where it is one or more digits and fits a u32.
#[tactic(auto, using(crate::proofs::DecimalLaws::digits))]
pub(crate) fn number(s: &[u8]) -> Option<u32>
    ensures { result ≡ decimal_of s.now }
{
    if s.is_empty() {
        return None;
    }
    let mut n: u32 = 0;
    for &b in s {
        if !b.is_ascii_digit() {
            return None;
        }
        n = n.checked_mul(10)?.checked_add(u32::from(b - b'0'))?;
    }
    Some(n)
}
