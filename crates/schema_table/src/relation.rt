ghost use Rattle.std.specs.Prelude.{◌≡◌, ◌++◌, [], filter_map, IfOk, OnOk};
ghost use Rattle.std.specs.List.{cons_option};
ghost use Rattle.std.specs.Str.{chars};
ghost use Rattle.schema_table.specs.Relationships.{relation, relations, relationship, roles};

use crate::lookup::Lookup;
use ifc_base::{Listed, Memory, Name, Role};
use std::alloc::Global;

/// A role as a schema has it: its relationship entity, and the place, from 0, of the attribute that
/// holds what is related.
#[derive(Drop)]
pub struct Relation {
    pub role: Role,
    pub entity: Name,
    pub place: u32,
}

/// The relationship entity of the role.
fn relationship_entity(role: Role) -> &'static str
    ensures { chars result.now ≡ (relationship role).entity }
{
    match role {
        Role::Properties => "IFCRELDEFINESBYPROPERTIES",
        Role::Kind => "IFCRELDEFINESBYTYPE",
        Role::Classification => "IFCRELASSOCIATESCLASSIFICATION",
        Role::Material => "IFCRELASSOCIATESMATERIAL",
        Role::Aggregates => "IFCRELAGGREGATES",
        Role::Nests => "IFCRELNESTS",
        Role::Contained => "IFCRELCONTAINEDINSPATIALSTRUCTURE",
        Role::Group => "IFCRELASSIGNSTOGROUP",
        Role::Voids => "IFCRELVOIDSELEMENT",
        Role::Fills => "IFCRELFILLSELEMENT",
    }
}

/// The attribute of the relationship entity that holds what is related.
fn related_attribute(role: Role) -> &'static str
    ensures { chars result.now ≡ (relationship role).related }
{
    match role {
        Role::Properties => "RelatedObjects",
        Role::Kind => "RelatedObjects",
        Role::Classification => "RelatedObjects",
        Role::Material => "RelatedObjects",
        Role::Aggregates => "RelatedObjects",
        Role::Nests => "RelatedObjects",
        Role::Contained => "RelatedElements",
        Role::Group => "RelatedObjects",
        Role::Voids => "RelatedOpeningElement",
        Role::Fills => "RelatedBuildingElement",
    }
}

/// Adds the role as the schema has it, if it does.
fn add_role(
    alloc: Global,
    lookup: &Lookup,
    role: Role,
    found: &mut Vec<Relation>,
) -> Result<(), Memory>
    ensures { OnOk result (found.new.items ≡ found.old.items ++ cons_option (relation lookup.now role) []) }
{
    let entity = Name::from_str(alloc, relationship_entity(role))?;
    if let Some(place) = lookup.place_named(&entity, related_attribute(role)) {
        found.push(Relation {
            role,
            entity,
            place,
        })?;
    }
    Ok(())
}

/// All roles, in their order.
fn all_roles() -> [Role; 10]
    ensures { result ≡ roles }
{
    [
        Role::Properties,
        Role::Kind,
        Role::Classification,
        Role::Material,
        Role::Aggregates,
        Role::Nests,
        Role::Contained,
        Role::Group,
        Role::Voids,
        Role::Fills,
    ]
}

/// The roles that the schema has, in their order.
pub(crate) fn relations_of(alloc: Global, lookup: &Lookup) -> Result<Listed<Relation>, Memory>
    ensures { IfOk result (λ found. found ≡ relations lookup.now) }
{
    let roles = all_roles();
    let mut found = Vec::new(alloc);
    for role in &roles {
        add_role(alloc, lookup, *role, &mut found)?;
    }
    Ok(Listed::from_vec(found))
}
