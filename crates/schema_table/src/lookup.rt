ghost use Rattle.std.specs.Prelude.{◌≡◌, ◌==◌, false, length, Some, IfOk, IfSome, is_some, slice_get};
ghost use Rattle.std.specs.List.{list_any};
ghost use Rattle.std.specs.Option.{option_map_or};
ghost use Rattle.std.specs.Str.{chars};
ghost use Rattle.schema_table.specs.Schema.{attributes, declaration, is_kind_of, place_of};
ghost use Rattle.schema_table.specs.Climbing.{chain, place};
ghost use Rattle.schema_table.specs.Faults.{instance_fault};
ghost use Rattle.schema_table.specs.Shares.{part, share_at};

use crate::climbs::step;
use crate::fault::InstanceFault;
use crate::index::{Index, number_of};
use crate::params::fault_of_params;
use crate::shares::{Attributes, part, share_at};
use crate::slot::{AttrSlot, is_named, slot_place};
use ifc_base::{EntityDecl, EntityDecls, Instance, Memory, Name, TryCopy};
use std::alloc::Global;
use std::marker::Model;

/// The entities of a schema by their numbers, which are their places from 0. Contracts see the list of
/// the entities.
#[derive(Drop)]
pub(crate) struct Lookup {
    pub entities: EntityDecls,
    /// The numbers by the entities' names.
    pub index: Index,
    /// The number of each entity's supertype.
    pub parents: Vec<Option<u32>>,
    pub attributes: Attributes,
}

impl Model for Lookup {
    ghost use Rattle.schema_table.specs.Schema.{Schema};
    ghost use Rattle.schema_table.specs.Table.{IsLookup};

    ghost Value = { Schema };

    ghost view = { λ lookup. lookup.entities };

    ghost invariant = { λ lookup. IsLookup lookup.entities lookup.index lookup.parents.items
        lookup.attributes.lists.items lookup.attributes.shares.items };
}

/// Whether the other one is the entity or among its supertypes, by numbers.
fn is_above(parents: &[Option<u32>], from: u32, of: u32) -> bool
    ensures { result ≡ list_any (λ x. x == of) (chain parents.now (length parents.now) (Some from)) }
{
    let mut at = Some(from);
    for _step in 0..parents.len() {
        match at {
            Some(number) => {
                if number == of {
                    return true;
                }
                at = step(parents, number);
            }
            None => return false,
        }
    }
    false
}

/// Whether the entity of this number is abstract.
fn is_abstract(entities: &[EntityDecl], number: u32) -> bool
    ensures { result ≡ option_map_or (λ d. d.is_abstract) (slice_get entities.now number) false }
{
    match entities.get(number as usize) {
        Some(entity) => entity.is_abstract,
        None => false,
    }
}

/// The attributes of the entity of this number.
fn slots_at(attributes: &Attributes, number: u32) -> &[AttrSlot]
    ensures { result.now ≡ part attributes.now.lists.items (share_at attributes.now.shares.items (Some number)) }
{
    let share = share_at(&attributes.shares, Some(number));
    part(&attributes.lists, share)
}

impl Lookup {
    /// The number of the entity whose name has these characters. `O(1)` on average.
    fn number_named(&self, name: &str) -> Option<u32>
        ensures { result ≡ place self.now (chars name.now) }
    {
        number_of(&self.index, name)
    }

    /// The number of the entity of this name. `O(1)` on average.
    fn number(&self, name: &Name) -> Option<u32>
        ensures { result ≡ place self.now name.now }
    {
        self.number_named(name.as_str())
    }

    pub(crate) fn is_kind_named(&self, entity: &Name, kind: &str) -> bool
        ensures { result ≡ is_kind_of self.now entity.now (chars kind.now) }
    {
        if is_named(entity, kind) {
            return true;
        }
        let _ = &self.parents;
        let from = match self.number(entity) {
            Some(number) => number,
            None => return false,
        };
        match self.number_named(kind) {
            Some(of) => is_above(&self.parents, from, of),
            None => false,
        }
    }

    /// The attributes of an entity whose number this is.
    fn slots(&self, number: u32, entity: &Name) -> &[AttrSlot]
        requires { place self.now entity.now ≡ Some number }
        ensures { result.now ≡ attributes self.now entity.now }
    {
        slots_at(&self.attributes, number)
    }

    pub(crate) fn attributes(&self, entity: &Name) -> Option<&[AttrSlot]>
        ensures declared { is_some result ≡ is_some (declaration self.now entity.now) }
        ensures slots { IfSome result (λ slots. slots.now ≡ attributes self.now entity.now) }
    {
        match self.number(entity) {
            Some(number) => Some(self.slots(number, entity)),
            None => None,
        }
    }

    pub(crate) fn place_named(&self, entity: &Name, attr: &str) -> Option<u32>
        ensures { result ≡ place_of self.now entity.now (chars attr.now) }
    {
        let _ = &self.entities;
        let number = self.number(entity)?;
        let place = slot_place(self.slots(number, entity), attr)?;
        Some(place as u32)
    }

    /// Why the instance doesn't fit, if it doesn't.
    pub(crate) fn misfit(
        &self,
        alloc: Global,
        instance: &Instance,
    ) -> Result<Option<InstanceFault>, Memory>
        ensures { IfOk result (λ fault. fault ≡ instance_fault self.now instance.now) }
    {
        let _ = &self.entities;
        let number = match self.number(&instance.entity) {
            Some(number) => number,
            None => {
                let name = instance.entity.copy(alloc)?;
                return Ok(Some(InstanceFault::UnknownEntity { name }));
            }
        };
        if is_abstract(self.entities.as_slice(), number) {
            let name = instance.entity.copy(alloc)?;
            return Ok(Some(InstanceFault::AbstractEntity { name }));
        }
        let slots = self.slots(number, &instance.entity);
        Ok(fault_of_params(slots, instance.params.as_slice()))
    }
}
