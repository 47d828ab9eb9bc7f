ghost use Rattle.std.specs.Cmp.Lexicographic.{pointwise, lists_per, lists_equiv, slice_cmp, slice_partial_cmp, lists_po, lists_total, lists_agrees, lists_ties};
ghost use Rattle.std.specs.Prelude.{◌≡◌, [], ◌∷◌, ◌++◌, IfOk, MatchResult};

use crate::memory::Memory;
use std::alloc::Global;
use std::cmp::Ordering;
use std::marker::Model;

/// A value of which a copy can be made that owns memory of its own.
pub trait TryCopy: Drop {
    /// An equal value; the only refusal is want of memory. `O(n)` in the size of the value.
    fn copy(&self, alloc: Global) -> Result<Self, Memory>
        ensures { IfOk result (λ copy. copy ≡ self.now) };
}

impl TryCopy for u32 {
    fn copy(&self, _alloc: Global) -> Result<u32, Memory> {
        Ok(*self)
    }
}

impl TryCopy for u8 {
    fn copy(&self, _alloc: Global) -> Result<u8, Memory> {
        Ok(*self)
    }
}

/// A `Vec` that contracts see as the list of its items. `==` compares the items one by one, by their
/// own `==`; the order is that of the first items that differ, and a list comes before the longer ones
/// that begin with it.
#[derive(Debug, Drop)]
pub struct Listed<T> {
    items: Vec<T>,
}

/// Bytes of a file.
pub type Bytes = Listed<u8>;

/// Numbers, as those of requirements, claims or reads.
pub type Numbers = Listed<u32>;

impl<T> Model for Listed<T> {
    ghost use Rattle.std.specs.Prelude.{List};
    ghost use Rattle.std.specs.Coded.{coded_list};

    ghost Value = { List T };

    ghost coded = { coded_list T.code };

    ghost view = { λ list. list.items.items };
}

impl<T> Listed<T> {
    /// The empty list. It takes no memory before the first `push`.
    pub fn new(alloc: Global) -> Listed<T>
        ensures { result ≡ [] }
    {
        Listed {
            items: Vec::new(alloc),
        }
    }

    /// The list of these items. It takes no memory. `O(1)`.
    pub fn from_vec(items: Vec<T>) -> Listed<T>
        ensures { result ≡ items.items }
    {
        Listed { items }
    }

    /// Gives the items back. It takes no memory. `O(1)`.
    pub fn into_vec(self) -> Vec<T>
        ensures { result.items ≡ self }
    {
        self.items
    }

    /// The items. `O(1)`.
    pub fn as_slice(&self) -> &[T]
        ensures { result.now ≡ self.now }
    {
        self.items.as_slice()
    }

    /// Adds the item at the end. For want of memory the item is handed back, and the list is as before.
    /// `O(1)` on average.
    pub fn push(&mut self, item: T) -> Result<(), (Memory, T)>
        ensures { MatchResult result (λ _. self.new ≡ self.old ++ item ∷ [])
            (λ back. (self.new ≡ self.old) × (back.1 ≡ item)) }
    {
        match self.items.push(item) {
            Ok(()) => Ok(()),
            Err(refused) => Err((Memory, refused.value)),
        }
    }
}

impl<T: TryCopy> TryCopy for Listed<T> {
    fn copy(&self, alloc: Global) -> Result<Listed<T>, Memory> {
        let mut items = Vec::with_capacity(alloc, self.items.len())?;
        for item in self.items.as_slice() {
            items.push(item.copy(alloc)?)?;
        }
        Ok(Listed { items })
    }
}

impl<T: PartialEq> PartialEq for Listed<T> {
    ghost eq = { λ a b. pointwise T.eq a b };

    ghost laws = { lists_per T.laws };

    fn eq(&self, other: &Listed<T>) -> bool {
        self.items == other.items
    }
}

impl<T: Eq> Eq for Listed<T> {
    ghost laws = { lists_equiv T.Eq.laws };
}

impl<T: PartialOrd> PartialOrd for Listed<T> {
    ghost partial_cmp = { λ a b. slice_partial_cmp T.partial_cmp a b };

    ghost laws = { lists_po T.PartialOrd.laws };

    fn partial_cmp(&self, other: &Listed<T>) -> Option<Ordering> {
        self.items.partial_cmp(&other.items)
    }
}

/// By the first items that differ; a list comes before the longer ones that begin with it. `O(n)`
/// comparisons of items.
impl<T: Ord> Ord for Listed<T> {
    ghost cmp = { λ a b. slice_cmp T.cmp a b };

    ghost total = { lists_total T.total };

    ghost matches_partial_cmp = { λ a b. lists_agrees T.matches_partial_cmp a b };

    ghost matches_eq = { λ a b. lists_ties T.cmp T.matches_eq a b };

    fn cmp(&self, other: &Listed<T>) -> Ordering {
        self.items.cmp(&other.items)
    }
}
