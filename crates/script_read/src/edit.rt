//! Edits of a script: the lines `add`, `set` and `remove`.

ghost use Rattle.std.specs.Prelude.{◌≡◌, ◌++◌, codes, IfOk};
ghost use Rattle.script_read.specs.Bytes.{Reads};
ghost use Rattle.script_read.specs.LineForm as spec;

use crate::bytes::{LineBytes, NoForm};
use audit_model::{Act, Edit};
use ifc_base::{Instance, Memory, Refusal, Value};
use p21_read::{read_instance, read_value};
use std::alloc::Global;

/// The text with a semicolon behind it.
fn with_semicolon(alloc: Global, text: &[u8]) -> Result<Vec<u8>, Memory>
    ensures { IfOk result (λ bytes. bytes.items ≡ text.now ++ codes ";") }
{
    let mut bytes = Vec::with_capacity(alloc, text.len() + 1)?;
    bytes.extend_from_slice(text)?;
    bytes.push(b';')?;
    Ok(bytes)
}

/// The instance that the bytes spell.
fn instance_in(alloc: Global, bytes: &[u8]) -> Result<Instance, Refusal<NoForm>>
    ensures { Reads (λ instance. instance) result (spec.instance_in bytes.now) }
{
    match read_instance(alloc, bytes) {
        Ok(instance) => Ok(instance),
        Err(Refusal::Fault(_)) => Err(Refusal::Fault(NoForm)),
        Err(Refusal::Memory) => Err(Refusal::Memory),
    }
}

/// The value that the bytes spell.
fn value_in(alloc: Global, bytes: &[u8]) -> Result<Value, Refusal<NoForm>>
    ensures { Reads (λ value. value) result (spec.value_in bytes.now) }
{
    match read_value(alloc, bytes) {
        Ok(value) => Ok(value),
        Err(Refusal::Fault(_)) => Err(Refusal::Fault(NoForm)),
        Err(Refusal::Memory) => Err(Refusal::Memory),
    }
}

/// The instance that the text spells, whose semicolon may be missing. A text without it is read twice.
#[tactic(auto, unfolding(crate::specs::LineForm::added))]
fn added(alloc: Global, text: &[u8]) -> Result<Instance, Refusal<NoForm>>
    ensures { Reads (λ instance. instance) result (spec.added text.now) }
{
    match instance_in(alloc, text) {
        Ok(instance) => Ok(instance),
        Err(Refusal::Fault(_)) => {
            let bytes = with_semicolon(alloc, text)?;
            instance_in(alloc, bytes.as_slice())
        }
        Err(Refusal::Memory) => Err(Refusal::Memory),
    }
}

/// What stands behind `add`.
#[tactic(auto, unfolding(crate::specs::LineForm::add_line))]
pub(crate) fn add_line(alloc: Global, text: &[u8]) -> Result<Act, Refusal<NoForm>>
    ensures { Reads (λ act. act) result (spec.add_line text.now) }
{
    let mut bytes = LineBytes::new(text);
    bytes.pass_blank()?;
    let instance = added(alloc, bytes.rest())?;
    Ok(Act::Change(Edit::Add(instance)))
}

/// What stands behind `remove`.
#[tactic(auto, unfolding(crate::specs::LineForm::remove_line))]
pub(crate) fn remove_line(text: &[u8]) -> Result<Act, Refusal<NoForm>>
    ensures { Reads (λ act. act) result (spec.remove_line text.now) }
{
    let mut bytes = LineBytes::new(text);
    bytes.pass_blanks()?;
    let id = bytes.id()?;
    bytes.end()?;
    Ok(Act::Change(Edit::Remove(id)))
}

/// What stands behind `set`.
#[tactic(auto, unfolding(crate::specs::LineForm::set_line))]
pub(crate) fn set_line(alloc: Global, text: &[u8]) -> Result<Act, Refusal<NoForm>>
    ensures { Reads (λ act. act) result (spec.set_line text.now) }
{
    let mut bytes = LineBytes::new(text);
    bytes.pass_blanks()?;
    let id = bytes.id()?;
    bytes.pass_blanks()?;
    let attr = bytes.attribute(alloc)?;
    bytes.pass_blank()?;
    let value = value_in(alloc, bytes.rest())?;
    Ok(Act::Change(Edit::Set { id, attr, value }))
}
