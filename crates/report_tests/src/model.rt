ghost use Rattle.std.specs.Prelude.{◌≡◌, IfOk};
ghost use Rattle.ifc_base.specs.Ids.{HasDistinctIds};

use audit_model::in_order;
use ifc_base::{InstId, Instance, Instances, Memory, Name, Values};
use std::alloc::Global;
use std::test::Fail;

fn wall(alloc: Global, number: u32) -> Result<Instance, Memory>
    ensures { IfOk result (λ wall. wall.id ≡ number) }
{
    let id = InstId::new(number).ok_or(Memory)?;
    let entity = Name::from_str(alloc, "IFCWALL")?;
    Ok(Instance {
        id,
        entity,
        params: Values::new(alloc),
    })
}

fn unordered(alloc: Global) -> Result<Instances, Memory>
    ensures { IfOk result HasDistinctIds }
{
    let walls = vec![in alloc; wall(alloc, 7)?, wall(alloc, 1)?, wall(alloc, 3)?]?;
    Ok(Instances::from_vec(walls))
}

#[test]
fn a_model_ascends(rt: HostRuntime) -> Result<(), Fail> {
    let model = in_order(unordered(rt.alloc())?)?;
    assert_eq!(rt; model.as_slice().len(), 3);
    for (instance, wanted) in model.as_slice().iter().zip([1, 3, 7]) {
        assert_eq!(rt; instance.id.get(), wanted);
    }
    Ok(())
}
