// Hexadecimal text, of both cases.
ghost use Rattle.std.specs.Prelude.{◌≡◌, ◌*◌, ◌≤◌, length};
ghost use Rattle.std.proofs.lemmas.List.Edits.{sets};
ghost use Rattle.script.specs.Hex.{value_of, is_hex, pairs, unhex_of, unhex_into};

// Text that is no hexadecimal, or an output that is too short for its bytes.
#[derive(Clone, Copy, Debug, PartialEq, Eq)]
pub enum UnhexError {
    NotHex,
    NoSpace,
}

fn digit_value(b: u8) -> Option<u8>
    ensures { result ≡ value_of b }
{
    match b {
        b'0'..=b'9' => Some(b - b'0'),
        b'A'..=b'F' => Some(b - b'A' + 10),
        b'a'..=b'f' => Some(b - b'a' + 10),
        _ => None,
    }
}

// Whether s is an even number of digits.
pub(crate) fn is_hex(s: &[u8]) -> bool
    ensures { result ≡ is_hex s.now }
{
    s.len() % 2 == 0 && s.iter().all(|b| digit_value(*b).is_some())
}

// By index: of a loop over the output's bytes beside `s.chunks_exact(2)`, what the output holds after it was not proved.
#[tactic(auto, using(crate::proofs::HexLaws::pair_step, crate::proofs::HexLaws::pair_end), unfolding(crate::specs::Hex::pair_value))]
fn decode(s: &[u8], out: &mut [u8])
    requires { length s.now ≤ 2 * length out.old }
    ensures { out.new ≡ sets out.old 0 (pairs s.now) }
{
    for i in 0..s.len() / 2 {
        let hi = digit_value(s[2 * i]).unwrap_or(0);
        let lo = digit_value(s[2 * i + 1]).unwrap_or(0);
        out[i] = 16 * hi + lo;
    }
}

// The bytes that s stands for, from output byte 0 on; how many they are.
#[tactic(auto, using(crate::proofs::HexLaws::decoding), unfolding(crate::specs::Hex::unhex_of, crate::specs::Hex::unhex_into))]
pub fn unhex(s: &[u8], out: &mut [u8]) -> Result<usize, UnhexError>
    ensures value { result ≡ unhex_of s.now out.old }
    ensures out_after { out.new ≡ unhex_into s.now out.old }
{
    if !is_hex(s) {
        return Err(UnhexError::NotHex);
    }
    let n = s.len() / 2;
    if out.len() < n {
        return Err(UnhexError::NoSpace);
    }
    decode(s, out);
    Ok(n)
}
