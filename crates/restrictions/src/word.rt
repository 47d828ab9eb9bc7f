//! Names that are one of some words.

ghost use Rattle.std.specs.Prelude.{◌≡◌, IsTrue};
ghost use Rattle.std.specs.Char.{is_ascii};
ghost use Rattle.std.specs.List.{list_all};
ghost use Rattle.std.specs.Str.{bytes_eq};

use ifc_base::Name;

/// Whether the name is this word. `O(n)`.
pub(crate) fn is_word(name: &Name, word: &str) -> bool
    requires { IsTrue (list_all is_ascii word.now) }
    ensures { result ≡ bytes_eq name.now word.now }
{
    name.is(word)
}
