ghost use Rattle.std.specs.Prelude.{◌≡◌, [], ◌∷◌, ◌++◌, IfOk, MatchResult, IsTrue, ◌↔◌, encode_utf8_all};
ghost use Rattle.std.specs.Str.{chars, bytes_eq};
ghost use Rattle.std.proofs.Common.{rules};
ghost use Rattle.std.specs.Cmp.{partial_equiv_from_equiv, partial_order_from_own_ties};
ghost use Rattle.std.specs.Cmp.Rules.{comparing, hashing};
ghost use Rattle.std.specs.Hash as fed;
ghost use Rattle.std.specs.Ordering.{as_partial_cmp};
ghost use Rattle.ifc_base.specs.NameOrder.{name_cmp, name_ties};
ghost use Rattle.std.specs.Cmp.Lexicographic.{nat_list_eq_equiv};

use crate::list::{Listed, TryCopy};
use crate::memory::Memory;
use std::alloc::Global;
use std::cmp::Ordering;
use std::hash::{Hash, Hasher};
use std::marker::Model;

/// A text that contracts see as the list of its characters. `==` compares the characters; the order is
/// that of their codes, from the first character on.
#[derive(Debug, Drop)]
pub struct Name {
    text: String,
}

/// Names in some order, which is that of their maker.
pub type Names = Listed<Name>;

impl Model for Name {
    ghost use Rattle.std.specs.Prelude.{ℕ, List, string_bytes};
    ghost use Rattle.std.specs.Str.{chars};

    ghost Value = { List ℕ };

    ghost view = { λ name. chars (string_bytes name.text) };
}

impl Name {
    /// The empty name. It takes no memory before the first `push`.
    pub fn new(alloc: Global) -> Name
        ensures { result ≡ [] }
    {
        Name {
            text: String::new(alloc),
        }
    }

    /// The name with the characters of this text; the only refusal is want of memory. `O(n)`.
    pub fn from_str(alloc: Global, text: &str) -> Result<Name, Memory>
        ensures { IfOk result (λ name. name ≡ chars text.now) }
    {
        Ok(Name {
            text: String::from_str(alloc, text)?,
        })
    }

    /// The text: the characters in UTF-8. `O(1)`.
    pub fn as_str(&self) -> &str
        ensures bytes { result.now ≡ encode_utf8_all self.now }
        ensures chars { chars result.now ≡ self.now }
    {
        self.text.as_str()
    }

    /// Whether the name has the characters of this text. It takes no memory. `O(n)`.
    pub fn is(&self, text: &str) -> bool
        ensures { IsTrue result ↔ (self.now ≡ chars text.now) }
    {
        self.text.as_str() == text
    }

    /// Adds the character at the end. For want of memory it is handed back, and the name is as before.
    /// `O(1)` on average.
    pub fn push(&mut self, item: char) -> Result<(), (Memory, char)>
        ensures { MatchResult result (λ _. self.new ≡ self.old ++ item ∷ [])
            (λ back. (self.new ≡ self.old) × (back.1 ≡ item)) }
    {
        match self.text.push(item) {
            Ok(()) => Ok(()),
            Err(_) => Err((Memory, item)),
        }
    }
}

impl TryCopy for Name {
    fn copy(&self, alloc: Global) -> Result<Name, Memory> {
        Ok(Name {
            text: String::from_str(alloc, self.text.as_str())?,
        })
    }
}

/// Equality of the characters. `O(n)`.
impl PartialEq for Name {
    ghost eq = { bytes_eq };

    ghost laws = { partial_equiv_from_equiv nat_list_eq_equiv };

    fn eq(&self, other: &Name) -> bool
        ensures same { IsTrue result ↔ (self.now ≡ other.now) }
        ensures eq { result ≡ bytes_eq self.now other.now }
    {
        self.text == other.text
    }
}

impl Eq for Name {
    ghost laws = { nat_list_eq_equiv };
}

impl PartialOrd for Name {
    ghost partial_cmp = { as_partial_cmp name_cmp };

    ghost laws = { partial_order_from_own_ties (Prim.search (comparing, rules)) name_ties };

    fn partial_cmp(&self, other: &Name) -> Option<Ordering> {
        Some(self.cmp(other))
    }
}

/// By the bytes in UTF-8, which is the order of the characters' codes. `O(n)`.
impl Ord for Name {
    ghost cmp = { name_cmp };

    ghost total = { Prim.search (comparing, rules) };

    ghost matches_partial_cmp = { Prim.search (comparing, rules) };

    ghost matches_eq = { name_ties };

    fn cmp(&self, other: &Name) -> Ordering {
        self.as_str().cmp(other.as_str())
    }
}

/// The hash of the text.
impl Hash for Name {
    ghost hash_input = { λ name. fed.str (encode_utf8_all name) };

    ghost respects_eq = { Prim.search (hashing, rules) };

    fn hash<H: Hasher>(&self, state: &mut H) {
        self.as_str().hash(state);
    }
}
