//! Classes of codes.

ghost use Rattle.std.specs.Prelude.{◌≡◌, ℕ, Bool};
ghost use Rattle.reading.specs.Codes.{code_of};

use crate::code::Code;

/// A class of codes, as blanks, digits, or all but one character.
pub trait Class {
    /// Which codes are of the class.
    ghost has_code: { Self → ℕ → Bool };

    /// Whether this is one of the class. `O(1)`.
    fn has(&self, code: Code) -> bool
        ensures { result ≡ has_code self.now (code_of code) };
}
