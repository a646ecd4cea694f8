// The numbers of AMF0 and of the session. AMF0's Number is a double, and is held here by its bit pattern.
#![tactic(auto)]

ghost use Rattle.std.specs.Prelude.{◌≡◌, ◌<◌, ◌^◌};
ghost use Rattle.std.specs.Float.Ieee.Nearest.{closest};
ghost use Rattle.std.specs.Float.{binary32, binary64};
ghost use Rattle.std.specs.Float.Ieee.{of_bits, to_bits};
ghost use Rattle.numbers.specs.Numbers.{held, number_of, narrowed};

use std::num::{f32_from_bits_with_nan, f32_to_f64_with_nan, f64_to_bits_with_nan};

// The Number cut to its whole part and held within 0 to 4,294,967,295; a NaN gives 0. Patterns rise with their numbers, so the tests are on the pattern:
// from 1 on, from 2 ^ 32 on, and past plus infinity, where the NaNs and the negative numbers are. `saturating_f64_to_u32` of what the pattern is read as
// does the same, and takes 5.9 ns in place of 2.9.
pub fn hold(bits: u64) -> u32
    ensures { result ≡ held bits }
{
    if bits < 0x3ff0_0000_0000_0000 {
        0
    } else if bits < 0x41f0_0000_0000_0000 {
        let digits = 0x10_0000_0000_0000 + bits % 0x10_0000_0000_0000;
        (digits >> (1075 - bits / 0x10_0000_0000_0000)) as u32
    } else if bits <= 0x7ff0_0000_0000_0000 {
        4294967295
    } else {
        0
    }
}

// The Number that is n.
pub fn number_of(n: u32) -> u64
    ensures { result ≡ number_of n }
{
    f64::to_bits(n as f64)
}

// The Number that equals x, a NaN's pattern being 7ff8000000000000.
pub fn widen(x: f32) -> u64
    ensures { result ≡ to_bits binary64 x }
{
    f64_to_bits_with_nan(f32_to_f64_with_nan(x))
}

// The Number that equals the single whose pattern is p; of a NaN, whatever its sign and payload, 7ff8000000000000.
pub fn widen_bits(p: u32) -> u64
    ensures { result ≡ to_bits binary64 (of_bits binary32 p) }
{
    widen(f32_from_bits_with_nan(p))
}

// q / u to the nearest whole number, a tie to the even one.
fn nearest(q: u64, u: u64) -> u64
    requires { (q < 2 ^ 53) × (0 < u) × (u < 2 ^ 62) }
    ensures { result ≡ closest q u }
{
    let whole = q / u;
    let rest = q % u * 2;
    if rest < u {
        whole
    } else if rest == u {
        whole + whole % 2
    } else {
        whole + 1
    }
}

// The pattern of the single nearest to the Number, a tie to the even one; of a NaN, whatever its sign and payload, 7fc00000.
// `nearest_f64_to_f32_with_nan` of what the pattern is read as does the same, and takes 9.2 ns in place of 2.9.
pub fn narrow_bits(bits: u64) -> u32
    ensures { result ≡ to_bits binary32 (narrowed (of_bits binary64 bits)) }
{
    let sign = bits / 0x8000_0000_0000_0000 * 0x8000_0000;
    let field = bits % 0x8000_0000_0000_0000 / 0x10_0000_0000_0000;
    let digits = bits % 0x10_0000_0000_0000;
    if field < 873 {
        // less than half of the smallest single
        sign as u32
    } else if field < 897 {
        // below the smallest normal single
        (sign + nearest(0x10_0000_0000_0000 + digits, 1 << (926 - field))) as u32
    } else if field < 1151 {
        // the digits' carry moves the field up, at the top to an infinity's
        (sign
            + ((field - 897) * 0x80_0000
                + nearest(0x10_0000_0000_0000 + digits, 0x2000_0000))) as u32
    } else if field < 2047 {
        (sign + 0x7f80_0000) as u32
    } else if digits == 0 {
        (sign + 0x7f80_0000) as u32
    } else {
        0x7fc0_0000
    }
}

// The single nearest to the Number. The logic has one NaN, so no proof says which NaN pattern the compiled f32 holds: what is printed or sent goes by
// narrow_bits, widen_bits and widen, which give every NaN one pattern.
#[tactic(auto, using(crate::proofs::NarrowLaws::read_back))]
pub fn narrow(bits: u64) -> f32
    ensures { result ≡ narrowed (of_bits binary64 bits) }
{
    f32_from_bits_with_nan(narrow_bits(bits))
}
