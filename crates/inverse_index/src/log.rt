ghost use Rattle.std.specs.Prelude.{◌≡◌, IfOk, if◌then◌else◌};
ghost use Rattle.ifc_base.specs.declared.key.Key.{Key};
ghost use Rattle.ifc_base.specs.KeyOrder.{key_eq};
ghost use Rattle.inverse_index.specs.Index.{has_key};
ghost use Rattle.inverse_index.specs.Log.{last_in};

use crate::numbers::key_number;
use ifc_base::{Key, Keys, Memory};
use std::alloc::Global;
use std::marker::Model;
use tree_map::TreeMap;

/// The last revision that changed each key. A change makes a new log and leaves this one as it was; the two
/// share all but the paths to the keys that it notes.
#[derive(Drop)]
pub struct ChangeLog {
    last: TreeMap<u32>,
}

impl Model for ChangeLog {
    ghost use Rattle.std.specs.Prelude.{ℕ};
    ghost use Rattle.std.specs.Ordering.{nat_cmp};
    ghost use Rattle.std.specs.FinMap as map;
    ghost use Rattle.std.specs.Coded.{coded_ℕ};

    ghost Value = { map.FinMap nat_cmp ℕ };

    ghost coded = { map.code coded_ℕ coded_ℕ };

    ghost view = { λ log. log.last };
}

impl ChangeLog {
    /// The log without changes. It takes no memory.
    pub fn new() -> ChangeLog
        ensures { (k : Key) → last_in result k ≡ 0 }
    {
        ChangeLog {
            last: TreeMap::new(),
        }
    }

    /// The last revision that changed the key, or 0. `O(1)`.
    pub fn last(&self, key: Key) -> u32
        ensures { result ≡ last_in self.now key }
    {
        self.last.get(key_number(key)).copied().unwrap_or(0)
    }

    /// The log in which this key has the revision.
    fn with_one(&self, alloc: Global, key: Key, revision: u32) -> Result<ChangeLog, Memory>
        ensures { IfOk result (λ next. (k : Key) → last_in next k ≡ (if key_eq key k then revision else last_in self.now k)) }
    {
        match self.last.with(alloc, key_number(key), revision) {
            Ok(last) => Ok(ChangeLog { last }),
            Err(_) => Err(Memory),
        }
    }

    /// The log in which these keys have the revision as their last. This log stays as it was. `O(1)` for
    /// each key.
    pub fn with_note(&self, alloc: Global, keys: &Keys, revision: u32) -> Result<ChangeLog, Memory>
        ensures { IfOk result (λ next. (k : Key) → last_in next k ≡ (if has_key keys.now k then revision else last_in self.now k)) }
    {
        let mut next = ChangeLog {
            last: self.last.share()?,
        };
        for key in keys.as_slice() {
            next = next.with_one(alloc, *key, revision)?;
        }
        Ok(next)
    }
}
