ghost use Rattle.std.specs.Prelude.{◌≡◌, ◌&&◌, IfOk, chars, map};
ghost use Rattle.std.specs.List.{list_any};
ghost use Rattle.std.specs.Option.{option_map_or};
ghost use Rattle.schema_table.specs.Schema.{is_kind_of};
ghost use Rattle.audit_model.specs.Relations.{text_admitted, some_kind_admitted};
ghost use Rattle.facet_relations.specs.Held.{kind_admitted, kind_admitted_at};

use audit_model::{Look, Restriction};
use facet_paths::{admits_name, text_at};
use ifc_base::{InstId, Instance, Memory};
use schema_table::SchemaTable;
use std::alloc::Global;

/// Whether the instance has an admitted text in the attribute.
pub(crate) fn text_admitted(
    alloc: Global,
    schema: &SchemaTable,
    condition: &Restriction,
    attr: &str,
    x: &Instance,
) -> Result<bool, Memory>
    ensures { IfOk result (λ b. b ≡ text_admitted schema.now condition.now (chars attr.now) x.now) }
{
    match text_at(schema, x, attr) {
        None => Ok(false),
        Some(text) => {
            let b = admits_name(alloc, condition, text)?;
            Ok(b)
        }
    }
}

/// Whether the instance is a kind of the entity and has an admitted text in the attribute.
fn kind_admitted(
    alloc: Global,
    schema: &SchemaTable,
    kind: &str,
    condition: &Restriction,
    attr: &str,
    x: &Instance,
) -> Result<bool, Memory>
    ensures { IfOk result (λ b. b ≡ kind_admitted schema.now (chars kind.now) condition.now (chars attr.now) x.now) }
{
    if !schema.is_kind_named(&x.entity, kind) {
        return Ok(false);
    }
    let b = text_admitted(alloc, schema, condition, attr, x)?;
    Ok(b)
}

/// Whether there is an instance of this id that is so.
fn kind_admitted_at<L: Look>(
    alloc: Global,
    schema: &SchemaTable,
    look: &L,
    kind: &str,
    condition: &Restriction,
    attr: &str,
    id: InstId,
) -> Result<bool, Memory>
    ensures { IfOk result (λ b. b ≡ kind_admitted_at schema.now (L.seen look.now) (chars kind.now) condition.now (chars attr.now) id) }
{
    match look.instance(id) {
        None => Ok(false),
        Some(x) => {
            let b = kind_admitted(alloc, schema, kind, condition, attr, x)?;
            Ok(b)
        }
    }
}

/// Whether one of the ids is that of such an instance.
fn some_at<L: Look>(
    alloc: Global,
    schema: &SchemaTable,
    look: &L,
    kind: &str,
    condition: &Restriction,
    attr: &str,
    ids: &[InstId],
) -> Result<bool, Memory>
    ensures { IfOk result (λ b. b ≡ list_any (kind_admitted_at schema.now (L.seen look.now) (chars kind.now) condition.now (chars attr.now)) ids.now) }
{
    for id in ids {
        if kind_admitted_at(alloc, schema, look, kind, condition, attr, *id)? {
            return Ok(true);
        }
    }
    Ok(false)
}

/// Whether one of the instances with these ids is a kind of the entity and has an admitted text in the attribute.
pub(crate) fn some_kind_admitted<L: Look>(
    alloc: Global,
    schema: &SchemaTable,
    look: &L,
    kind: &str,
    condition: &Restriction,
    attr: &str,
    ids: &[InstId],
) -> Result<bool, Memory>
    ensures { IfOk result (λ b. b ≡ some_kind_admitted schema.now (chars kind.now) condition.now (chars attr.now) (map (L.seen look.now).instance ids.now)) }
{
    let b = some_at(alloc, schema, look, kind, condition, attr, ids)?;
    Ok(b)
}
