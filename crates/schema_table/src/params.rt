ghost use Rattle.std.specs.Prelude.{◌≡◌, length, position, zip};
ghost use Rattle.schema_table.specs.Faults.{carried, is_misplaced, params_fault};

use crate::fault::InstanceFault;
use crate::slot::AttrSlot;
use ifc_base::{Value, ValueNode};

/// Whether `*` stands wrongly, or neither `*` nor `$` stands for a derived attribute.
fn is_misplaced(slot: &AttrSlot, value: &Value) -> bool
    ensures { result ≡ is_misplaced slot.now.derived value.now.node }
{
    match &value.node {
        ValueNode::Derived => !slot.derived,
        ValueNode::Absent => false,
        _ => slot.derived,
    }
}

/// The first place, from 0, at which `*` is misplaced.
fn first_misplaced(slots: &[AttrSlot], params: &[Value]) -> Option<usize>
    ensures { result ≡ position (λ p. is_misplaced p.0.derived p.1.node) (zip slots.now params.now) }
{
    slots
        .iter()
        .zip(params)
        .position(|(slot, value)| is_misplaced(slot, value))
}

/// The number as a fault carries it.
fn carried(number: usize) -> u32
    ensures { result ≡ carried number }
{
    u32::try_from(number).unwrap_or(u32::MAX)
}

/// Why these parameters don't fit the attributes, if they don't.
pub(crate) fn fault_of_params(slots: &[AttrSlot], params: &[Value]) -> Option<InstanceFault>
    ensures { result ≡ params_fault slots.now params.now }
{
    if params.len() != slots.len() {
        return Some(InstanceFault::ParamCount {
            found: carried(params.len()),
            wanted: carried(slots.len()),
        });
    }
    let place = first_misplaced(slots, params)?;
    Some(InstanceFault::MisplacedDerived {
        place: carried(place.saturating_add(1)),
    })
}
