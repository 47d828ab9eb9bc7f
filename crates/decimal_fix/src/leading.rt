//! The leading digits of a number of any length.

ghost use Rattle.std.specs.Prelude.{◌≤◌, ◌<◌, ◌^◌};

/// The first digits of a number, as a number, and how many more follow them.
///
/// Digits are dropped only behind 33 of them, which alone decide what the number is rounded to: a number that has more
/// before the place of rounding is Beyond, and behind that place only the first digit counts.
#[derive(Clone, Copy)]
pub(crate) struct Leading {
    pub(crate) number: u128,
    pub(crate) more: usize,
    ghost few: { number < 10 ^ 33 },
    ghost enough: { 0 < more → 10 ^ 32 ≤ number },
}
