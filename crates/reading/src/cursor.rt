//! What is still to read, over bytes.

ghost use Rattle.std.specs.Prelude.{◌≡◌, ◌∷◌, [], MatchOption, IsSome, IfSome, drop, true, false, if◌then◌else◌};
ghost use Rattle.std.specs.Char.{is_ascii_digit};
ghost use Rattle.std.specs.Option.{option_map};
ghost use Rattle.reading.specs.Codes.{code_of, codes_of};
ghost use Rattle.reading.specs.Reading.{ascii, first, turns};
ghost use Rattle.reading.specs.Runs.{begins, run};

use crate::class::Class;
use crate::code::{Code, front};
use std::marker::Model;

/// A place in bytes from where they are still to read. Contracts see it as what the bytes from there on say: the codes of
/// their characters, and the marks of bytes that belong to none.
#[derive(Drop)]
pub struct Cursor<'a> {
    bytes: &'a [u8],
}

impl<'a> Model for Cursor<'a> {
    ghost use Rattle.std.specs.Prelude.{ℕ, List};
    ghost use Rattle.std.specs.Coded.{coded_list, coded_ℕ};
    ghost use Rattle.reading.specs.Codes.{codes_of};

    ghost Value = { List ℕ };

    ghost coded = { coded_list coded_ℕ };

    ghost view = { λ cursor. codes_of cursor.bytes.now };
}

impl<'a> Cursor<'a> {
    /// All of the bytes are still to read.
    pub fn new(bytes: &'a [u8]) -> Cursor<'a>
        ensures { result ≡ codes_of bytes.now }
    {
        Cursor { bytes }
    }

    /// The bytes that are still to read. They name the place where the cursor stands.
    #[inline]
    pub fn rest(&self) -> &'a [u8]
        ensures { codes_of result.now ≡ self.now }
    {
        self.bytes
    }

    /// Takes what stands next: a character, or a byte that begins none. At the end there is nothing, and
    /// the cursor stays. `O(1)`.
    #[inline(always)]
    #[tactic(auto, using(crate::proofs::Codes::next_laws))]
    pub fn next(&mut self) -> Option<Code>
        ensures { MatchOption result ((self.old ≡ []) × (self.new ≡ [])) (λ code. self.old ≡ code_of code
            ∷ self.new) }
    {
        let bytes = self.bytes;
        if !bytes.is_empty() {
            let byte = bytes[0];
            if byte < 0x80 {
                self.bytes = &bytes[1..];
                return Some(Code::Char(byte as char));
            }
        }
        let code = front(bytes)?;
        self.bytes = &bytes[code.width()..];
        Some(code)
    }

    /// Passes what stands next, if it is of the class; whether it was. `O(1)`.
    #[inline(always)]
    #[tactic(auto, using(crate::proofs::Codes::next_laws))]
    fn pass_one<C: Class>(&mut self, class: &C) -> bool
        ensures is { result ≡ begins (C.has_code class.now) self.old }
        ensures left { self.new ≡ (if result then drop 1 self.old else self.old) }
    {
        let bytes = self.bytes;
        if !bytes.is_empty() {
            let byte = bytes[0];
            if byte < 0x80 {
                if !class.has(Code::Char(byte as char)) {
                    return false;
                }
                self.bytes = &bytes[1..];
                return true;
            }
        }
        let Some(code) = front(bytes) else {
            return false;
        };
        if !class.has(code) {
            return false;
        }
        self.bytes = &bytes[code.width()..];
        true
    }

    /// Passes the longest run of the class that comes next; the cursor stands behind it. `O(n)` in the run's bytes, in registers.
    #[inline]
    #[tactic(auto, using(crate::proofs::RunLaws::while_laws))]
    pub fn pass_run<C: Class>(&mut self, class: &C)
        ensures { self.new ≡ (run (C.has_code class.now) self.old).1 }
    {
        let mut here = Cursor { bytes: self.bytes };
        while here.pass_one(class) {}
        self.bytes = here.bytes;
    }

    /// What stands next; the cursor stays. `O(1)`.
    #[inline(always)]
    #[tactic(auto, using(crate::proofs::Codes::at_end))]
    pub fn peek(&self) -> Option<Code>
        ensures { option_map code_of result ≡ first self.now }
    {
        front(self.bytes)
    }

    /// The character that stands next, if it is one of ASCII, as a byte; the cursor stays. Nothing is decoded. `O(1)`.
    #[inline(always)]
    #[tactic(auto, using(crate::proofs::Ascii::front_ascii))]
    pub fn ascii(&self) -> Option<u8>
        ensures { result ≡ ascii self.now }
    {
        let bytes = self.bytes;
        if !bytes.is_empty() {
            let byte = bytes[0];
            if byte < 0x80 {
                return Some(byte);
            }
        }
        None
    }

    /// Passes the character of ASCII that stands next. Nothing is decoded. `O(1)`.
    #[inline(always)]
    #[tactic(auto, using(crate::proofs::Ascii::pass_laws))]
    pub fn pass_ascii(&mut self)
        requires { IsSome (ascii self.old) }
        ensures { IfSome (ascii self.old) (λ byte. self.old ≡ byte ∷ self.new) }
    {
        self.bytes = &self.bytes[1..];
    }

    /// Takes the next character as a byte, if it is a digit of ASCII; else there is nothing, and the cursor
    /// stays. Nothing is decoded. `O(1)`.
    #[inline(always)]
    #[tactic(auto, using(crate::proofs::Ascii::digit_laws))]
    pub fn next_digit(&mut self) -> Option<u8>
        ensures is { MatchOption result (begins is_ascii_digit self.old ≡ false) (λ byte. is_ascii_digit byte ≡ true) }
        ensures left { MatchOption result (self.new ≡ self.old) (λ byte. self.old ≡ byte ∷ self.new) }
    {
        let bytes = self.bytes;
        if !bytes.is_empty() {
            let byte = bytes[0];
            if matches!(byte, b'0'..=b'9') {
                self.bytes = &bytes[1..];
                return Some(byte);
            }
        }
        None
    }

    /// One more than there are bytes still to read, so more than there are codes: as many turns as a loop may need.
    #[inline]
    #[tactic(auto, using(crate::proofs::Says::size_codes), unfolding(crate::specs::Reading::turns))]
    pub fn turns(&self) -> usize
        ensures { result ≡ turns self.now }
    {
        self.bytes.len() + 1
    }
}
