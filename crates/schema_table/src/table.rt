ghost use Rattle.std.specs.Prelude.{◌≡◌, ◌≤◌, [], length, None, Some, OnOk, IfOk, IfSome, is_some};
ghost use Rattle.std.specs.Str.{chars};
ghost use Rattle.ifc_base.specs.Refusals.{OnFault};
ghost use Rattle.schema_table.specs.Schema.{attributes, declaration, is_kind_of, place_of};
ghost use Rattle.schema_table.specs.Climbing.{parents_of};
ghost use Rattle.schema_table.specs.Declarations.{declared_fault, schema_fault};
ghost use Rattle.schema_table.specs.Faults.{instance_fault};
ghost use Rattle.schema_table.specs.Index.{IsIndex};
ghost use Rattle.schema_table.specs.Relationships.{relations};

use crate::checks::{are_too_many, names_fault};
use crate::cycles::cycle_fault;
use crate::fault::{InstanceFault, SchemaFault};
use crate::index::{Index, index_of, parents};
use crate::lookup::Lookup;
use crate::order::parents_first;
use crate::relation::{Relation, relations_of};
use crate::shares::attributes_of;
use crate::slot::AttrSlot;
use ifc_base::{
    EntityDecl, EntityDecls, Instance, Listed, Memory, Name, Refusal, TypeDecl, TypeDecls,
};
use std::alloc::Global;
use std::marker::Model;

/// A schema without a fault, ready to be looked up. Contracts see the list of its entities.
#[derive(Drop)]
pub struct SchemaTable {
    lookup: Lookup,
    relations: Listed<Relation>,
}

impl Model for SchemaTable {
    ghost use Rattle.std.specs.Prelude.{◌≡◌};
    ghost use Rattle.schema_table.specs.Schema.{Schema};
    ghost use Rattle.schema_table.specs.Relationships as relationships;

    ghost Value = { Schema };

    ghost view = { λ table. table.lookup };

    ghost invariant = { λ table. table.relations ≡ relationships.relations table.lookup };
}

/// Entities that have numbers.
#[derive(Drop)]
struct Numbered {
    index: Index,
    parents: Vec<Option<u32>>,
}

/// Numbers the entities, and gives each the number of its supertype.
fn give_numbers(alloc: Global, entities: &[EntityDecl]) -> Result<Numbered, Memory>
    requires { length entities.now ≤ 5000 }
    ensures index { IfOk result (λ numbered. IsIndex entities.now numbered.index) }
    ensures parents { IfOk result (λ numbered. numbered.parents.items ≡ parents_of entities.now) }
{
    let index = index_of(alloc, entities)?;
    let parents = parents(alloc, &index, entities)?;
    Ok(Numbered { index, parents })
}

/// The fault of the entities, if they have one: that of a name, or else a cycle.
fn fault_of(
    alloc: Global,
    numbered: &Numbered,
    entities: &[EntityDecl],
) -> Result<Option<SchemaFault>, Memory>
    requires few { length entities.now ≤ 5000 }
    requires index { IsIndex entities.now numbered.now.index }
    requires parents { numbered.now.parents.items ≡ parents_of entities.now }
    ensures { IfOk result (λ fault. fault ≡ declared_fault entities.now) }
{
    if let Some(fault) = names_fault(alloc, &numbered.index, entities)? {
        return Ok(Some(fault));
    }
    let fault = cycle_fault(alloc, entities, &numbered.parents)?;
    Ok(fault)
}

/// The numbers of the entities, unless the declarations have a fault.
fn checked(
    alloc: Global,
    entities: &[EntityDecl],
    types: &[TypeDecl],
) -> Result<Numbered, Refusal<SchemaFault>>
    ensures faultless { OnOk result (schema_fault entities.now types.now ≡ None) }
    ensures index { IfOk result (λ numbered. IsIndex entities.now numbered.index) }
    ensures parents { IfOk result (λ numbered. numbered.parents.items ≡ parents_of entities.now) }
    ensures fault { OnFault result (λ fault. schema_fault entities.now types.now ≡ Some fault) }
{
    if are_too_many(entities, types) {
        return Err(Refusal::Fault(SchemaFault::TooMany));
    }
    let numbered = give_numbers(alloc, entities)?;
    let refused = fault_of(alloc, &numbered, entities)?;
    match refused {
        Some(fault) => Err(Refusal::Fault(fault)),
        None => Ok(numbered),
    }
}

/// The look-ups of entities that have numbers.
fn lookup_of(alloc: Global, entities: EntityDecls, numbered: Numbered) -> Result<Lookup, Memory>
    requires faultless { schema_fault entities [] ≡ None }
    requires index { IsIndex entities numbered.index }
    requires parents { numbered.parents.items ≡ parents_of entities }
    ensures { IfOk result (λ lookup. lookup ≡ entities) }
{
    let order = parents_first(alloc, &numbered.parents)?;
    let attributes = attributes_of(alloc, entities.as_slice(), &numbered.parents, &order)?;
    Ok(Lookup {
        entities,
        index: numbered.index,
        parents: numbered.parents,
        attributes,
    })
}

impl SchemaTable {
    /// The table of these declarations, if they have no fault, and otherwise the first fault: there are
    /// more than 5,000 entities and types, or more than 200 own attributes of one entity; else the first
    /// entity, in declared order, whose name stood before, or whose supertype isn't declared; else the
    /// first one that is its own supertype, over others or directly (ISO 10303-11, entity declaration).
    /// Besides, it may refuse for want of memory.
    ///
    /// `O(n log n)` in the number of entities, and linear in what it keeps: an entity has a list of
    /// attributes of its own only where it redeclares some, or adds some when a list that begins with its
    /// supertype's has been lengthened for another subtype. Of an attribute that an entity adds it looks at
    /// the supertypes that redeclare attributes, if there are such.
    pub fn build(
        alloc: Global,
        entities: EntityDecls,
        types: TypeDecls,
    ) -> Result<SchemaTable, Refusal<SchemaFault>>
        ensures faultless { OnOk result (schema_fault entities types ≡ None) }
        ensures built { IfOk result (λ table. table ≡ entities) }
        ensures fault { OnFault result (λ fault. schema_fault entities types ≡ Some fault) }
    {
        let numbered = checked(alloc, entities.as_slice(), types.as_slice())?;
        let lookup = lookup_of(alloc, entities, numbered)?;
        let relations = relations_of(alloc, &lookup)?;
        Ok(SchemaTable { lookup, relations })
    }

    /// Whether the entity is the other one or a subtype of it. An entity that isn't declared is a kind of
    /// itself alone. One look-up of each name, and `O(d)` in the number of supertypes.
    pub fn is_kind_of(&self, entity: &Name, of: &Name) -> bool
        ensures { result ≡ is_kind_of self.now entity.now of.now }
    {
        self.is_kind_named(entity, of.as_str())
    }

    /// Whether the entity is the one whose name has these characters, or a subtype of it; as
    /// `is_kind_of`.
    pub fn is_kind_named(&self, entity: &Name, kind: &str) -> bool
        ensures { result ≡ is_kind_of self.now entity.now (chars kind.now) }
    {
        self.lookup.is_kind_named(entity, kind)
    }

    /// The attributes of an entity in the order of an instance's parameters: those of its topmost supertype
    /// first and its own last (ISO 10303-21, mapping of simple entity instances); none where the entity
    /// isn't declared. `O(1)` on average.
    pub fn attributes(&self, entity: &Name) -> Option<&[AttrSlot]>
        ensures declared { is_some result ≡ is_some (declaration self.now entity.now) }
        ensures slots { IfSome result (λ slots. slots.now ≡ attributes self.now entity.now) }
    {
        self.lookup.attributes(entity)
    }

    /// The first place, from 0, of an attribute of this name, if the entity is declared and has one. One
    /// look-up of the entity, and `O(a)` in the number of its attributes.
    pub fn position(&self, entity: &Name, attr: &Name) -> Option<u32>
        ensures { result ≡ place_of self.now entity.now attr.now }
    {
        self.place_named(entity, attr.as_str())
    }

    /// The first place, from 0, of an attribute whose name has these characters; as `position`.
    pub fn place_named(&self, entity: &Name, attr: &str) -> Option<u32>
        ensures { result ≡ place_of self.now entity.now (chars attr.now) }
    {
        self.lookup.place_named(entity, attr)
    }

    /// The relationships that the schema has, in the order of their roles. `O(1)`.
    pub fn relations(&self) -> &[Relation]
        ensures { result.now ≡ relations self.now }
    {
        self.relations.as_slice()
    }

    /// Whether the instance fits the schema, and if not, why, by the first of these that holds: its entity
    /// isn't declared; it is abstract; it has another number of attributes than the instance has
    /// parameters; at a place, from 1, `*` stands for an attribute that isn't derived, or neither `*` nor
    /// `$` for one that is (ISO 10303-21, mapping of simple entity instances). Besides, it may refuse for
    /// want of memory. One look-up of the entity, and `O(p)` in the number of parameters.
    pub fn check_instance(
        &self,
        alloc: Global,
        instance: &Instance,
    ) -> Result<(), Refusal<InstanceFault>>
        ensures fits { OnOk result (instance_fault self.now instance.now ≡ None) }
        ensures fault { OnFault result (λ fault. instance_fault self.now instance.now ≡ Some fault) }
    {
        match self.lookup.misfit(alloc, instance)? {
            Some(fault) => Err(Refusal::Fault(fault)),
            None => Ok(()),
        }
    }
}
