//! What stands at the front of bytes.

ghost use Rattle.std.specs.Prelude.{◌≡◌, ◌≤◌, ◌<◌, ◌∷◌, [], length, drop, MatchOption, ◌==◌};
ghost use Rattle.reading.specs.Codes.{code_of, char_of, codes_of, width, IsCode};

/// A character of UTF-8, or a byte that begins none.
#[derive(Clone, Copy, Debug, PartialEq, Eq)]
pub enum Code {
    Char(char),
    Byte(u8),
}

impl Code {
    /// Whether it is this character.
    #[inline]
    pub fn is(self, wanted: char) -> bool
        ensures { result ≡ (code_of self == wanted) }
    {
        match self {
            Code::Char(found) => found == wanted,
            Code::Byte(_) => false,
        }
    }

    /// How many bytes it takes.
    #[inline(always)]
    #[tactic(auto, using(crate::proofs::Widths::width_laws))]
    pub fn width(self) -> usize
        ensures { result ≡ width (code_of self) }
    {
        match self {
            Code::Char(found) => found.len_utf8(),
            Code::Byte(_) => 1,
        }
    }

    /// The character, if it is one.
    #[inline]
    pub fn char(self) -> Option<char>
        ensures { result ≡ char_of (code_of self) }
    {
        match self {
            Code::Char(found) => Some(found),
            Code::Byte(_) => None,
        }
    }
}

/// The number of what stands at the front of the bytes: a character's code, or the mark of a byte that
/// begins none. A number and not a `Code`, since it comes back in a register. `O(1)`.
#[inline(never)]
#[tactic(auto, using(crate::proofs::Widths::front_laws))]
fn wide_number(bytes: &[u8]) -> u32
    requires { 0 < length bytes.now }
    ensures code { codes_of bytes.now ≡ result ∷ codes_of (drop (width result) bytes.now) }
    ensures size { width result ≤ length bytes.now }
    ensures kind { IsCode result }
{
    match bstr::decode_utf8(bytes) {
        (Some(found), _) => found as u32,
        (None, _) => 0x11_0000 + bytes[0] as u32,
    }
}

/// The character or the byte of this number.
#[inline(always)]
fn numbered(number: u32) -> Code
    requires { IsCode number }
    ensures { code_of result ≡ number }
{
    match char::from_u32(number) {
        Some(found) => Code::Char(found),
        None => Code::Byte((number - 0x11_0000) as u8),
    }
}

/// What stands at the front of the bytes. `O(1)`.
#[inline(always)]
#[tactic(auto, using(crate::proofs::Widths::front_laws))]
pub(crate) fn front(bytes: &[u8]) -> Option<Code>
    ensures code { MatchOption result (bytes.now ≡ []) (λ code. codes_of bytes.now ≡ code_of code ∷ codes_of (drop
        (width (code_of code)) bytes.now)) }
    ensures size { MatchOption result (bytes.now ≡ []) (λ code. width (code_of code) ≤ length bytes.now) }
{
    if bytes.is_empty() {
        return None;
    }
    let byte = bytes[0];
    if byte < 0x80 {
        return Some(Code::Char(byte as char));
    }
    Some(numbered(wide_number(bytes)))
}
