//! Laws of the definitions.

ghost use Rattle.std.specs.Prelude.{◌≡◌, ◌+◌, ◌<◌, ◌↔◌, ◌++◌, ℕ, Bool, List, length, min, chars, IsUtf8};
ghost use Rattle.reading.specs.Codes.{codes_of, Says};
ghost use Rattle.reading.specs.Lines.{line_feeds, line_of, place_of};
ghost use Rattle.reading.specs.Reading.{Turn, Shortens, each, turns, all_turns};
ghost use Rattle.reading.specs.Runs.{IsRun, run};

/// What bytes say is what the Unicode Standard's words give, and nothing else.
pub fn bytes_say()
    ensures { (bytes codes : List ℕ) → Says bytes codes ↔ (codes_of bytes ≡ codes) }
{}

/// UTF-8 says its characters.
pub fn text_says()
    ensures { (bytes : List ℕ) → IsUtf8 bytes → codes_of bytes ≡ chars bytes }
{}

/// Turns never run out. For turns that leave less whenever they go on, any two numbers above the text's
/// length give the same, whatever cause would be given where turns are spent; and a loop of all turns
/// has more than the length. So no fault comes from the bound of a loop.
pub fn turns_never_run_out<C, S>()
    ensures same { (turn : Turn C S) → Shortens turn → (why other : C) (n m : ℕ) (s : S) (t : List ℕ)
        → length t < n → length t < m
        → each why turn n s t ≡ each other turn m s t }
    ensures all { (turn : Turn C S) → Shortens turn → (why other : C) (n : ℕ) (s : S) (t : List ℕ) → length t < n
        → each why turn n s t ≡ all_turns other turn s t }
{}

/// Each text has one longest run of a class at its front.
pub fn one_run()
    ensures is { (class : ℕ → Bool) (t : List ℕ) → IsRun class t (run class t).0 (run class t).1 }
    ensures only { (class : ℕ → Bool) (t xs u : List ℕ) → IsRun class t xs u → run class t ≡ (xs, u) }
{}

/// The line of a place is 1 plus the line feeds before it, and its number 1 plus the characters before it. Bytes have the line
/// feeds of what they say.
pub fn lines_count()
    ensures line { (before left : List ℕ) → line_of (before ++ left) left ≡ min (line_feeds before + 1) 0xFFFF_FFFF }
    ensures place { (before left : List ℕ) → place_of (before ++ left) left ≡ min (length before + 1) 0xFFFF_FFFF }
    ensures bytes { (bytes : List ℕ) → line_feeds (codes_of bytes) ≡ line_feeds bytes }
{}
