ghost use Rattle.std.specs.Prelude.{◌≡◌};
ghost use Rattle.audit_model.specs.Ascending.{ascending_keys};

use closure_walk::laws::same_need;
use ifc_base::Keys;

/// The keys in ascending order, each once, with no room for more. It takes no memory. `O(n log n)`.
pub fn in_order(keys: Keys) -> Keys
    ensures { result ≡ ascending_keys keys }
{
    let mut needs = keys.into_vec();
    needs.sort_unstable();
    needs.dedup();
    needs.shrink_to_fit();
    same_need();
    Keys::from_vec(needs)
}
