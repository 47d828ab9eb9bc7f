ghost use Rattle.std.specs.Prelude.{◌≡◌, ◌++◌, ◌∷◌, [], ◌&&◌, ◌||◌, OnOk, IfOk, if◌then◌else◌, length, nat_lt};
ghost use Rattle.facet_property.specs.Held.{properties_of, texts_of, judged_all, valued_sets, weighed_by};

use crate::find::Found;
use crate::hiding::are_among;
use crate::judging::{Judged, judge};
use audit_model::{PropertyFacet, Weighed};
use ifc_base::{Memory, Name};
use schema_table::SchemaTable;
use std::alloc::Global;

/// What is said of properties, and of one more.
fn with_one(all: Judged, one: Judged) -> Judged
    ensures { result ≡ record { has_value = all.has_value || one.has_value; is_good = all.is_good && one.is_good } }
{
    Judged {
        has_value: all.has_value || one.has_value,
        is_good: all.is_good && one.is_good,
    }
}

/// Adds the name, if the property has a value.
fn push_valued<'a>(
    has_value: bool,
    name: &'a Name,
    valued: &mut Vec<&'a Name>,
) -> Result<(), Memory>
    ensures { OnOk result (texts_of valued.new.items ≡ texts_of valued.old.items ++ (if has_value then name.entry.now ∷ [] else [])) }
{
    if has_value {
        valued.push(name)?;
    }
    Ok(())
}

/// Judges each of the properties, and adds the set names of those that have a value.
fn judge_all<'a>(
    alloc: Global,
    schema: &SchemaTable,
    facet: &PropertyFacet,
    properties: &[Found<'a>],
    valued: &mut Vec<&'a Name>,
) -> Result<Judged, Memory>
    ensures judged { IfOk result (λ j. j ≡ judged_all schema.now facet.now (properties_of properties.now)) }
    ensures valued { OnOk result (texts_of valued.new.items ≡ texts_of valued.old.items ++ valued_sets schema.now (properties_of properties.now)) }
{
    let mut all = Judged {
        has_value: false,
        is_good: true,
    };
    for p in properties {
        let one = judge(alloc, schema, facet, p)?;
        push_valued(one.has_value, p.set, valued)?;
        all = with_one(all, one);
    }
    Ok(all)
}

/// Whether there is a name, each has a property with a value, and all properties are good.
fn holds_by(names: &[&Name], have_values: bool, are_good: bool) -> bool
    ensures { result ≡ (nat_lt 0 (length (texts_of names.now)) && (have_values && are_good)) }
{
    !names.is_empty() && have_values && are_good
}

/// What the facet gives, of the admitted set names and the properties of which it speaks. `O(n log n)`.
pub(crate) fn weigh_found<'a>(
    alloc: Global,
    schema: &SchemaTable,
    facet: &PropertyFacet,
    names: &[&'a Name],
    properties: &[Found<'a>],
) -> Result<Weighed, Memory>
    ensures { IfOk result (λ w. w ≡ weighed_by schema.now facet.now (texts_of names.now) (properties_of properties.now)) }
{
    let mut valued = Vec::new(alloc);
    let all = judge_all(alloc, schema, facet, properties, &mut valued)?;
    let have_values = are_among(alloc, names, valued.as_slice())?;
    let holds = holds_by(names, have_values, all.is_good);
    Ok(Weighed {
        holds,
        subject: all.has_value,
    })
}
