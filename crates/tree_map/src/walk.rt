ghost use Rattle.std.specs.Prelude.{◌≡◌, map};
ghost use Rattle.std.specs.Iterator.{YieldsFirstBy, item_count};
ghost use Rattle.tree_map.specs.Roots.{seen};

use std::alloc::Global;
use std::marker::Model;
use std::vec::IntoIter;

/// The pairs of a map in ascending key, each once. Contracts see the list of the pairs that are left.
#[derive(Drop)]
pub struct Walk<'a, V> {
    pairs: IntoIter<(u64, &'a V), Global>,
}

impl<'a, V> Model for Walk<'a, V> {
    ghost use Rattle.std.specs.Prelude.{ℕ, List, map};
    ghost use Rattle.std.specs.Coded.{coded_list, coded×, coded_ℕ};
    ghost use Rattle.std.specs.Vec.Iter.{into_iter_items};
    ghost use Rattle.tree_map.specs.Roots.{seen};

    ghost Value = { List (ℕ × V) };

    ghost coded = { coded_list (coded× coded_ℕ V.code) };

    ghost view = { λ walk. map seen (into_iter_items walk.pairs) };
}

impl<'a, V> Walk<'a, V> {
    pub(crate) fn new(pairs: Vec<(u64, &'a V)>) -> Walk<'a, V>
        ensures { result ≡ map seen pairs.entry.items }
    {
        Walk {
            pairs: pairs.into_iter(),
        }
    }
}

impl<'a, V> Iterator for Walk<'a, V> {
    type Item = (u64, &'a V);

    ghost next_gives = { YieldsFirstBy seen (λ walk. walk) };

    ghost remaining = { item_count (λ walk. walk) };

    fn next(&mut self) -> Option<(u64, &'a V)> {
        self.pairs.next()
    }
}
