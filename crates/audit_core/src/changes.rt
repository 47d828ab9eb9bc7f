ghost use Rattle.std.specs.Prelude.{◌≡◌, find, nat_lt};
ghost use Rattle.inverse_index.specs.Log.{last_in};

use ifc_base::Key;
use inverse_index::ChangeLog;

/// The first of these keys that was changed after this revision. `O(log n)` for each key.
pub fn first_changed(log: &ChangeLog, needs: &[Key], since: u32) -> Option<Key>
    ensures { result ≡ find (λ k. nat_lt since (last_in log.now k)) needs.now }
{
    needs.iter().copied().find(|key| log.last(*key) > since)
}
