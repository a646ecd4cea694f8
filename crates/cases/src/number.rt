// The numbers of a double's pattern.
use case_lines::{Digits, Given, OrWord};
use std::io;
use std::io::Write;

// Held in 32 bits; that as a Number again; the nearest single's pattern; the Number of that single, by its pattern and by its value.
pub fn case<W: Write>(to: &mut W, given: &[u8]) -> io::Result<()> {
    let Some(bits) = Given::new(given).long() else {
        return write!(to, "short");
    };
    let held = numbers::hold(bits);
    let again = Digits(numbers::number_of(held), 16);
    let single = numbers::narrow_bits(bits);
    let by_pattern = Digits(numbers::widen_bits(single), 16);
    let by_value = Digits(numbers::widen(numbers::narrow(bits)), 16);
    let single = Digits(u64::from(single), 8);
    write!(to, "{held}\t{again}\t{single}\t{by_pattern}\t{by_value}")
}

// The Number of a single, by its pattern.
pub fn single<W: Write>(to: &mut W, given: &[u8]) -> io::Result<()> {
    let number = Given::new(given)
        .number()
        .map(|p| Digits(numbers::widen_bits(p), 16));
    write!(to, "{}", OrWord(number, "short"))
}
