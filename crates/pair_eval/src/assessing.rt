ghost use Rattle.std.specs.Prelude.{◌≡◌, ◌++◌, ◌∷◌, [], ◌==◌, ◌≤◌, OnOk, IfOk, find, length};
ghost use Rattle.std.specs.Option.{option_copied};
ghost use Rattle.audit_model.specs.Specifications.{AreSpecifications};
ghost use Rattle.audit_model.specs.Verdicts.{assess, assess_pair};
ghost use Rattle.facet_paths.specs.Reads.{Reads};

use crate::facets::all_hold;
use crate::requirements::verdict_where_applicable;
use audit_model::{Look, Pair, Specification, Verdict};
use ifc_base::{InstId, Key, Keys, Memory};
use schema_table::SchemaTable;
use std::alloc::Global;

/// Appends the key.
fn note(reads: &mut Keys, key: Key) -> Result<(), Memory>
    ensures { OnOk result (reads.new ≡ reads.old ++ key ∷ []) }
{
    match reads.push(key) {
        Ok(()) => Ok(()),
        Err(_) => Err(Memory),
    }
}

/// The verdict of the specification on the element. The keys that this looks at are appended, in no order.
fn assess<L: Look>(
    alloc: Global,
    schema: &SchemaTable,
    look: &L,
    elem: InstId,
    spec: &Specification,
    reads: &mut Keys,
) -> Result<Verdict, Memory>
    requires { length spec.now.requirements ≤ 64 }
    ensures { IfOk result (λ d. Reads (assess schema.now spec.now elem) (L.seen look.now) d reads.old reads.new) }
{
    note(reads, Key::Inst(elem))?;
    let facets = spec.applicability.as_slice();
    let applies = all_hold(alloc, schema, look, elem, facets, reads)?;
    if !applies {
        return Ok(Verdict::NotApplicable);
    }
    let requirements = spec.requirements.as_slice();
    let verdict = verdict_where_applicable(
        alloc,
        schema,
        look,
        elem,
        spec.occurs,
        requirements,
        reads,
    )?;
    Ok(verdict)
}

/// The specification of this number, if there is one. `O(1)`.
fn specification(specs: &[Specification], number: u32) -> Option<&Specification>
    requires { AreSpecifications specs.now }
    ensures { option_copied result ≡ find (λ spec. spec.number == number) specs.now }
{
    if number == 0 {
        return None;
    }
    specs.get(number as usize - 1)
}

/// The verdict on the pair. The keys that this looks at are appended, in no order.
pub fn assess_pair<L: Look>(
    alloc: Global,
    schema: &SchemaTable,
    look: &L,
    specs: &[Specification],
    pair: Pair,
    reads: &mut Keys,
) -> Result<Verdict, Memory>
    requires { AreSpecifications specs.now }
    ensures { IfOk result (λ d. Reads (assess_pair schema.now specs.now pair) (L.seen look.now) d reads.old reads.new) }
{
    match specification(specs, pair.spec) {
        Some(spec) => {
            let verdict = assess(alloc, schema, look, pair.elem, spec, reads)?;
            Ok(verdict)
        }
        None => {
            note(reads, Key::Inst(pair.elem))?;
            Ok(Verdict::NotApplicable)
        }
    }
}
