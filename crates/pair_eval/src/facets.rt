ghost use Rattle.std.specs.Prelude.{◌≡◌, ◌++◌, ◌&&◌, IfOk, OnOk};
ghost use Rattle.std.specs.List.{list_all};
ghost use Rattle.closure_walk.specs.Walking.{SameKeys};
ghost use Rattle.audit_model.specs.declared.facet.Facet.TheVariants.{Entity};
ghost use Rattle.audit_model.specs.Reading.{visit};
ghost use Rattle.audit_model.specs.Verdicts.{weigh};
ghost use Rattle.facet_paths.specs.Reads.{Reads};

use audit_model::{EntityFacet, Facet, Look, Weighed};
use facet_own::weigh_attribute;
use facet_partof::weigh_part_of;
use facet_paths::look_at_entity;
use facet_property::weigh_property;
use facet_relations::{weigh_classification, weigh_material};
use ifc_base::{InstId, Keys, Memory};
use schema_table::SchemaTable;
use std::alloc::Global;
use std::mem;

/// What an entity facet gives. Its keys go straight to the others, so that a specification which asks for the
/// entity alone takes no memory but for them.
fn weigh_entity<L: Look>(
    alloc: Global,
    schema: &SchemaTable,
    look: &L,
    elem: InstId,
    facet: &EntityFacet,
    reads: &mut Keys,
) -> Result<Weighed, Memory>
    ensures { IfOk result (λ w. Reads (weigh schema.now (Entity facet.now) elem) (L.seen look.now) w reads.old reads.new) }
{
    let mut keys = mem::replace(reads, Keys::new(alloc)).into_vec();
    let holds = look_at_entity(alloc, schema, look, elem, facet, &mut keys)?;
    *reads = Keys::from_vec(keys);
    Ok(Weighed {
        holds,
        subject: holds,
    })
}

/// What the facet gives, by its kind. Its keys are appended.
pub fn weigh_facet<L: Look>(
    alloc: Global,
    schema: &SchemaTable,
    look: &L,
    elem: InstId,
    facet: &Facet,
    reads: &mut Keys,
) -> Result<Weighed, Memory>
    ensures { IfOk result (λ w. Reads (weigh schema.now facet.now elem) (L.seen look.now) w reads.old reads.new) }
{
    match facet {
        Facet::Entity(facet) => {
            let weighed = weigh_entity(alloc, schema, look, elem, facet, reads)?;
            Ok(weighed)
        }
        Facet::Attribute(facet) => {
            let weighed = weigh_attribute(alloc, schema, look, elem, facet, reads)?;
            Ok(weighed)
        }
        Facet::Property(facet) => {
            let weighed = weigh_property(alloc, schema, look, elem, facet, reads)?;
            Ok(weighed)
        }
        Facet::Classification(facet) => {
            let weighed = weigh_classification(alloc, schema, look, elem, facet, reads)?;
            Ok(weighed)
        }
        Facet::Material(facet) => {
            let weighed = weigh_material(alloc, schema, look, elem, facet, reads)?;
            Ok(weighed)
        }
        Facet::PartOf(facet) => {
            let weighed = weigh_part_of(alloc, schema, look, elem, facet, reads)?;
            Ok(weighed)
        }
    }
}

/// Whether all held so far, and this one does.
fn hold_both(all: bool, weighed: Weighed) -> bool
    ensures { result ≡ (all && weighed.holds) }
{
    all && weighed.holds
}

/// Whether each of the facets holds. All of them are looked at, whatever they give.
pub fn all_hold<L: Look>(
    alloc: Global,
    schema: &SchemaTable,
    look: &L,
    elem: InstId,
    facets: &[Facet],
    reads: &mut Keys,
) -> Result<bool, Memory>
    ensures holds { IfOk result (λ b. b ≡ list_all (λ w. w.holds)
        ((visit (λ f. weigh schema.now f elem) facets.now).answer (L.seen look.now))) }
    ensures reads { OnOk result (SameKeys reads.new (reads.old ++
        (visit (λ f. weigh schema.now f elem) facets.now).keys (L.seen look.now))) }
{
    let mut all = true;
    for facet in facets {
        let weighed = weigh_facet(alloc, schema, look, elem, facet, reads)?;
        all = hold_both(all, weighed);
    }
    Ok(all)
}
