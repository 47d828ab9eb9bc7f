ghost use Rattle.std.specs.Prelude.{◌≡◌, IfOk, length};
ghost use Rattle.audit_model.specs.Models.{IsModel, model_of_file};
ghost use Rattle.ifc_base.specs.Ids.{HasDistinctIds};

use ifc_base::{Instances, Memory};

/// The model of a file: its instances in ascending id. The ids have to be distinct. For want of memory
/// the instances are dropped.
/// `O(n log n)` in their number, and `O(n)` where they ascend already.
pub fn in_order(instances: Instances) -> Result<Instances, Memory>
    requires { HasDistinctIds instances }
    ensures value { IfOk result (λ model. model ≡ model_of_file instances) }
    ensures ascending { IfOk result IsModel }
    ensures count { IfOk result (λ model. length model ≡ length instances) }
{
    let mut model = instances.into_vec();
    match model.sort_by_key(|instance| instance.id) {
        Ok(()) => Ok(Instances::from_vec(model)),
        Err(_) => Err(Memory),
    }
}
