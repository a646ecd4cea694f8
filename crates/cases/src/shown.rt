// What the crates below answer, for printing.
use case_lines::Digits;

// A value of a crate below, to be printed. Its impls stand beside the cases that show it.
#[derive(Debug, PartialEq, Eq, Clone, Copy)]
pub struct Shown<T>(pub T);

// A single, as its pattern.
pub fn rate(x: f32) -> Digits {
    Digits(u64::from(numbers::narrow_bits(numbers::widen(x))), 8)
}
