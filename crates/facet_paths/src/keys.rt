ghost use Rattle.std.specs.Prelude.{◌≡◌, ◌++◌, OnOk, OnErr};

use ifc_base::{Key, Keys, Memory};
use std::alloc::Global;
use std::mem;

/// Appends the keys. The one refusal is want of memory; `reads` is as before then. `O(n)` on average in the
/// number of keys appended.
pub fn append_keys(alloc: Global, reads: &mut Keys, keys: &[Key]) -> Result<(), Memory>
    ensures ok { OnOk result (reads.new ≡ reads.old ++ keys.now) }
    ensures err { OnErr result (reads.new ≡ reads.old) }
{
    let mut items = mem::replace(reads, Keys::new(alloc)).into_vec();
    let appended = items.extend_from_slice(keys);
    *reads = Keys::from_vec(items);
    match appended {
        Ok(()) => Ok(()),
        Err(_) => Err(Memory),
    }
}
