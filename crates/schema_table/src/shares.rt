ghost use Rattle.std.specs.Prelude.{◌≡◌, ◌+◌, ◌<◌, ◌==◌, ◌||◌, true, ◌++◌, ◌∷◌, [], None, Some, length, map, take, IfOk, OnOk, slice_get, slice_set};
ghost use Rattle.schema_table.specs.Schema.{upwards};
ghost use Rattle.schema_table.specs.Declarations.{schema_fault};
ghost use Rattle.schema_table.specs.Climbing.{entity_at, parents_of, step};
ghost use Rattle.schema_table.specs.Order.{HasAll, IsParentsFirst};
ghost use Rattle.schema_table.specs.Redeclared.{AreLinks};
ghost use Rattle.schema_table.specs.Shares.{Begins, HasSet, HaveAttributes, IsPart, KeepsParts};
ghost use Rattle.schema_table.specs.Shares.{list_at, may_share, part, redeclared, share_at, slot_of, slots_of};

use crate::climbs::step;
use crate::redeclared::{is_among, is_redeclared, links};
use crate::slot::AttrSlot;
use ifc_base::{EntityDecl, Listed, Memory, Name, TryCopy};
use std::alloc::Global;

/// The attributes of an entity: the first so many of the list of this number.
#[derive(Clone, Copy)]
pub(crate) struct Share {
    pub list: usize,
    pub len: usize,
}

/// No attributes, of the first list.
const NOTHING: Share = Share { list: 0, len: 0 };

/// The first so many slots.
fn first_slots(slots: &[AttrSlot], len: usize) -> &[AttrSlot]
    ensures { result.now ≡ take len slots.now }
{
    if len < slots.len() {
        &slots[..len]
    } else {
        slots
    }
}

/// The attributes of this share.
pub(crate) fn part(lists: &[Listed<AttrSlot>], share: Share) -> &[AttrSlot]
    ensures { result.now ≡ part lists.now share }
{
    match lists.get(share.list) {
        Some(list) => first_slots(list.as_slice(), share.len),
        None => &[],
    }
}

/// The length of a list.
fn list_len(lists: &[Listed<AttrSlot>], list: usize) -> usize
    ensures { result ≡ length (list_at lists.now list) }
{
    match lists.get(list) {
        Some(list) => list.as_slice().len(),
        None => 0,
    }
}

/// Whether the entity can go on with its supertype's list.
fn may_share(lists: &[Listed<AttrSlot>], base: Share, entity: &EntityDecl) -> bool
    ensures { result ≡ may_share lists.now base entity.now }
{
    let adds = entity.own.as_slice().len();
    entity.derived.as_slice().len() == 0 && (adds == 0 || base.len == list_len(lists, base.list))
}

/// The slots, where attributes of these names are redeclared.
fn copied(alloc: Global, slots: &[AttrSlot], derived: &[Name]) -> Result<Listed<AttrSlot>, Memory>
    ensures { IfOk result (λ copy. copy ≡ map (redeclared derived.now) slots.now) }
{
    let mut copies = Vec::with_capacity(alloc, slots.len())?;
    for slot in slots {
        copies.push(AttrSlot {
            name: slot.name.copy(alloc)?,
            derived: slot.derived || is_among(derived, &slot.name),
        })?;
    }
    Ok(Listed::from_vec(copies))
}

/// Begins a list of the entity's own with its supertype's attributes.
fn new_list(
    alloc: Global,
    lists: &mut Vec<Listed<AttrSlot>>,
    base: Share,
    entity: &EntityDecl,
) -> Result<Share, Memory>
    ensures lists { OnOk result (lists.new.items ≡ lists.old.items ++ map (redeclared entity.now.derived) (part lists.old.items base) ∷ []) }
    ensures share { IfOk result (λ share. share ≡ record { list = length lists.old.items; len = length (part lists.old.items base) }) }
{
    let list = copied(alloc, part(lists, base), entity.derived.as_slice())?;
    let share = Share {
        list: lists.len(),
        len: list.as_slice().len(),
    };
    lists.push(list)?;
    Ok(share)
}

/// Adds the slot at the end.
fn push_slot(list: &mut Listed<AttrSlot>, slot: AttrSlot) -> Result<(), Memory>
    ensures { OnOk result (list.new ≡ list.old ++ slot ∷ []) }
{
    match list.push(slot) {
        Ok(()) => Ok(()),
        Err((memory, _)) => Err(memory),
    }
}

/// Adds the entity's own attributes at the end.
fn push_own(
    alloc: Global,
    entities: &[EntityDecl],
    parents: &[Option<u32>],
    links: &[Option<u32>],
    number: u32,
    entity: &EntityDecl,
    list: &mut Listed<AttrSlot>,
) -> Result<(), Memory>
    requires faultless { schema_fault entities.now [] ≡ None }
    requires parents { parents.now ≡ parents_of entities.now }
    requires links { AreLinks entities.now links.now }
    requires entity { slice_get entities.now number ≡ Some entity.now }
    ensures { OnOk result (list.new ≡ list.old
        ++ map (slot_of (upwards entities.now (length entities.now) (slice_get entities.now number))) entity.now.own) }
{
    for name in entity.own.as_slice() {
        let derived = is_redeclared(entities, parents, links, number, name);
        let name = name.copy(alloc)?;
        push_slot(list, AttrSlot { name, derived })?;
    }
    Ok(())
}

/// Lengthens a list by the entity's own attributes; where there are some, the start is the whole list.
fn lengthened(
    alloc: Global,
    entities: &[EntityDecl],
    parents: &[Option<u32>],
    links: &[Option<u32>],
    number: u32,
    entity: &EntityDecl,
    lists: &mut Vec<Listed<AttrSlot>>,
    start: Share,
) -> Result<Share, Memory>
    requires faultless { schema_fault entities.now [] ≡ None }
    requires parents { parents.now ≡ parents_of entities.now }
    requires links { AreLinks entities.now links.now }
    requires entity { slice_get entities.now number ≡ Some entity.now }
    requires part { IsPart lists.old.items start }
    requires whole { (length entity.now.own == 0 || start.len == length (list_at lists.old.items start.list)) ≡ true }
    ensures lists { OnOk result (lists.new.items ≡ slice_set lists.old.items start.list (list_at lists.old.items start.list
        ++ map (slot_of (upwards entities.now (length entities.now) (slice_get entities.now number))) entity.now.own)) }
    ensures share { IfOk result (λ share. share ≡ record { list = start.list; len = start.len + length entity.now.own }) }
{
    let list = &mut lists[start.list];
    push_own(alloc, entities, parents, links, number, entity, list)?;
    let len = if entity.own.as_slice().len() == 0 {
        start.len
    } else {
        list_len(lists, start.list)
    };
    Ok(Share {
        list: start.list,
        len,
    })
}

/// Where the entity's attributes begin: in its supertype's list, or in one of its own.
fn start(
    alloc: Global,
    lists: &mut Vec<Listed<AttrSlot>>,
    base: Share,
    entity: &EntityDecl,
) -> Result<Share, Memory>
    requires { IsPart lists.old.items base }
    ensures kept { OnOk result (KeepsParts lists.old.items lists.new.items) }
    ensures begins { IfOk result (λ share. Begins lists.old.items base entity.now lists.new.items share) }
{
    if may_share(lists, base, entity) {
        return Ok(base);
    }
    let share = new_list(alloc, lists, base, entity)?;
    Ok(share)
}

/// The share of the entity, by that of its supertype.
fn share_of(
    alloc: Global,
    entities: &[EntityDecl],
    parents: &[Option<u32>],
    links: &[Option<u32>],
    number: u32,
    entity: &EntityDecl,
    lists: &mut Vec<Listed<AttrSlot>>,
    base: Share,
) -> Result<Share, Memory>
    requires faultless { schema_fault entities.now [] ≡ None }
    requires parents { parents.now ≡ parents_of entities.now }
    requires links { AreLinks entities.now links.now }
    requires entity { slice_get entities.now number ≡ Some entity.now }
    requires part { IsPart lists.old.items base }
    ensures kept { OnOk result (KeepsParts lists.old.items lists.new.items) }
    ensures part { IfOk result (λ share. IsPart lists.new.items share) }
    ensures slots { IfOk result (λ share. part lists.new.items share ≡ map (redeclared entity.now.derived) (part lists.old.items base)
        ++ map (slot_of (upwards entities.now (length entities.now) (slice_get entities.now number))) entity.now.own) }
{
    let begun = start(alloc, lists, base, entity)?;
    let share = lengthened(
        alloc, entities, parents, links, number, entity, lists, begun,
    )?;
    Ok(share)
}

/// The share of an entity.
pub(crate) fn share_at(shares: &[Share], at: Option<u32>) -> Share
    ensures { result ≡ share_at shares.now at }
{
    match at {
        Some(number) => match shares.get(number as usize) {
            Some(share) => *share,
            None => NOTHING,
        },
        None => NOTHING,
    }
}

/// Sets the share of this number.
fn set_share(shares: &mut Vec<Share>, number: u32, share: Share)
    ensures { shares.new.items ≡ slice_set shares.old.items number share }
{
    let place = number as usize;
    if place < shares.len() {
        shares[place] = share;
    }
}

/// Makes the share of the next entity, whose supertype has its own.
fn next_share(
    alloc: Global,
    entities: &[EntityDecl],
    parents: &[Option<u32>],
    links: &[Option<u32>],
    number: u32,
    lists: &mut Vec<Listed<AttrSlot>>,
    shares: &mut Vec<Share>,
) -> Result<(), Memory>
    requires faultless { schema_fault entities.now [] ≡ None }
    requires parents { parents.now ≡ parents_of entities.now }
    requires links { AreLinks entities.now links.now }
    requires inside { number < length entities.now }
    requires part { IsPart lists.old.items (share_at shares.old.items (step parents.now number)) }
    requires slots { part lists.old.items (share_at shares.old.items (step parents.now number))
        ≡ slots_of (upwards entities.now (length entities.now) (entity_at entities.now (step parents.now number))) }
    ensures kept { OnOk result (KeepsParts lists.old.items lists.new.items) }
    ensures shared { OnOk result (HasSet lists.new.items
        (slots_of (upwards entities.now (length entities.now) (slice_get entities.now number))) number shares.old.items shares.new.items) }
{
    let entity = &entities[number as usize];
    let base = share_at(shares, step(parents, number));
    let share = share_of(alloc, entities, parents, links, number, entity, lists, base)?;
    set_share(shares, number, share);
    Ok(())
}

/// The attributes of all entities.
#[derive(Drop)]
pub(crate) struct Attributes {
    pub shares: Vec<Share>,
    pub lists: Vec<Listed<AttrSlot>>,
}

/// The attributes of all entities, made in an order in which supertypes come first.
pub(crate) fn attributes_of(
    alloc: Global,
    entities: &[EntityDecl],
    parents: &[Option<u32>],
    order: &[u32],
) -> Result<Attributes, Memory>
    requires faultless { schema_fault entities.now [] ≡ None }
    requires parents { parents.now ≡ parents_of entities.now }
    requires first { IsParentsFirst parents.now order.now }
    requires all { HasAll parents.now order.now }
    ensures { IfOk result (λ made. HaveAttributes entities.now made.lists.items made.shares.items) }
{
    let links = links(alloc, entities, parents, order)?;
    let mut lists = Vec::new(alloc);
    lists.push(Listed::new(alloc))?;
    let mut shares = vec![in alloc; NOTHING; entities.len()]?;
    for number in order {
        next_share(
            alloc,
            entities,
            parents,
            &links,
            *number,
            &mut lists,
            &mut shares,
        )?;
    }
    Ok(Attributes { shares, lists })
}
