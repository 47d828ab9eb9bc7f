ghost use Rattle.std.specs.Prelude.{◌≡◌, ◌++◌, ◌∷◌, [], ◌&&◌, ◌||◌, OnOk, OnErr, IfOk, option_copied};
ghost use Rattle.std.specs.List.{zip};
ghost use Rattle.closure_walk.specs.Walking.{SameKeys};
ghost use Rattle.schema_table.specs.Attributes.{parameters};
ghost use Rattle.audit_model.specs.Asked.{admits_if_asked};
ghost use Rattle.audit_model.specs.declared.facet.Facet.TheVariants.{Attribute};
ghost use Rattle.audit_model.specs.Facets.{attribute_weighed};
ghost use Rattle.audit_model.specs.Verdicts.{weigh};
ghost use Rattle.facet_own.specs.Attributes.{is_asked_slot, slots_weighed};

use audit_model::{AttributeFacet, Look, Restriction, Weighed};
use facet_paths::{admits_name, is_set};
use ifc_base::{InstId, Instance, Key, Keys, Memory, Value};
use schema_table::{AttrSlot, SchemaTable};
use std::alloc::Global;

/// Whether the attribute has an admitted name and is set.
fn is_asked(
    alloc: Global,
    facet: &AttributeFacet,
    slot: &AttrSlot,
    value: &Value,
) -> Result<bool, Memory>
    ensures { IfOk result (λ b. b ≡ is_asked_slot facet.now (slot.now, value.now)) }
{
    if !admits_name(alloc, &facet.name, &slot.name)? {
        return Ok(false);
    }
    Ok(is_set(value))
}

/// Whether the condition, if there is one, admits the value.
fn admits_if_asked(
    alloc: Global,
    condition: &Option<Restriction>,
    value: &Value,
) -> Result<bool, Memory>
    ensures { IfOk result (λ b. b ≡ admits_if_asked condition.now value.now) }
{
    match condition {
        None => Ok(true),
        Some(condition) => {
            let admitted = condition.admits(alloc, value)?;
            Ok(admitted)
        }
    }
}

/// What the facet says of one attribute.
fn weigh_one(
    alloc: Global,
    facet: &AttributeFacet,
    slot: &AttrSlot,
    value: &Value,
) -> Result<Weighed, Memory>
    ensures { IfOk result (λ w. w ≡ record { holds = is_asked_slot facet.now (slot.now, value.now) && admits_if_asked facet.now.value value.now; subject = is_asked_slot facet.now (slot.now, value.now) }) }
{
    if !is_asked(alloc, facet, slot, value)? {
        return Ok(Weighed {
            holds: false,
            subject: false,
        });
    }
    let holds = admits_if_asked(alloc, &facet.value, value)?;
    Ok(Weighed {
        holds,
        subject: true,
    })
}

/// What holds of one or the other.
fn either(one: Weighed, other: Weighed) -> Weighed
    ensures { result ≡ record { holds = one.holds || other.holds; subject = one.subject || other.subject } }
{
    Weighed {
        holds: one.holds || other.holds,
        subject: one.subject || other.subject,
    }
}

/// What the facet says of attributes with their values, place by place.
fn weigh_all(
    alloc: Global,
    facet: &AttributeFacet,
    slots: &[AttrSlot],
    values: &[Value],
) -> Result<Weighed, Memory>
    ensures { IfOk result (λ w. w ≡ slots_weighed facet.now (zip slots.now values.now)) }
{
    let mut all = Weighed {
        holds: false,
        subject: false,
    };
    for at in 0..slots.len() {
        if at >= values.len() {
            return Ok(all);
        }
        let one = weigh_one(alloc, facet, &slots[at], &values[at])?;
        all = either(all, one);
    }
    Ok(all)
}

/// What the facet says of an instance that is there.
fn weigh_instance(
    alloc: Global,
    schema: &SchemaTable,
    facet: &AttributeFacet,
    x: &Instance,
) -> Result<Weighed, Memory>
    ensures { IfOk result (λ w. w ≡ slots_weighed facet.now (parameters schema.now x.now)) }
{
    match schema.attributes(&x.entity) {
        None => Ok(Weighed {
            holds: false,
            subject: false,
        }),
        Some(slots) => {
            let weighed = weigh_all(alloc, facet, slots, x.params.as_slice())?;
            Ok(weighed)
        }
    }
}

/// What the facet says of an instance, if it is there.
fn weigh_found(
    alloc: Global,
    schema: &SchemaTable,
    facet: &AttributeFacet,
    x: Option<&Instance>,
) -> Result<Weighed, Memory>
    ensures { IfOk result (λ w. w ≡ attribute_weighed schema.now facet.now (option_copied x.entry)) }
{
    match x {
        None => Ok(Weighed {
            holds: false,
            subject: false,
        }),
        Some(x) => {
            let weighed = weigh_instance(alloc, schema, facet, x)?;
            Ok(weighed)
        }
    }
}

/// Appends the key. After want of memory `reads` is as before.
fn note(reads: &mut Keys, key: Key) -> Result<(), Memory>
    ensures ok { OnOk result (reads.new ≡ reads.old ++ key ∷ []) }
    ensures err { OnErr result (reads.new ≡ reads.old) }
{
    match reads.push(key) {
        Ok(()) => Ok(()),
        Err(_) => Err(Memory),
    }
}

/// Whether the element meets the attribute facet, and whether it has what the facet speaks of (IDS 1.0, attribute
/// facet): an attribute of an admitted name whose value is set, and that the value condition, if there is one,
/// admits. Of two attributes of one name each is looked at; inverse attributes aren't. An element that is missing
/// in the model, or whose entity isn't declared, has none.
///
/// The key of the element is appended. The one refusal is want of memory; `reads` is as before then. `O(n)` in the
/// number of attributes, and the time of the conditions.
pub fn weigh_attribute<L: Look>(
    alloc: Global,
    schema: &SchemaTable,
    look: &L,
    elem: InstId,
    facet: &AttributeFacet,
    reads: &mut Keys,
) -> Result<Weighed, Memory>
    ensures weighed { IfOk result (λ w. w ≡ (weigh schema.now (Attribute facet.now) elem).answer (L.seen look.now)) }
    ensures reads { OnOk result (SameKeys reads.new (reads.old ++ (weigh schema.now (Attribute facet.now) elem).keys (L.seen look.now))) }
    ensures kept { OnErr result (reads.new ≡ reads.old) }
{
    let weighed = weigh_found(alloc, schema, facet, look.instance(elem))?;
    note(reads, Key::Inst(elem))?;
    Ok(weighed)
}
