//! From bytes to a value, to an instance, to a file.

ghost use Rattle.std.specs.Prelude.{Ok, IfOk};
ghost use Rattle.ifc_base.specs.declared.value.Instance.{Instance};
ghost use Rattle.ifc_base.specs.declared.value.Value.{Value};
ghost use Rattle.reading.specs.Lines.{Answers};
ghost use Rattle.p21_read.specs.FileGrammar.{ReadsFile};
ghost use Rattle.p21_read.specs.Grammar.{ReadsInstance, ReadsValue};
ghost use Rattle.p21_read.specs.declared.file.P21File.{P21File};
ghost use Rattle.p21_read.specs.Readings as spec;

use crate::fault::P21Fault;
use crate::file::{P21File, whole_file};
use crate::instance::whole_instance;
use crate::value::whole_value;
use ifc_base::{Instance, Refusal, Value};
use reading::answer;
use std::alloc::Global;

/// Reads one value (a parameter of ISO 10303-21), with nothing around it but blanks and comments.
///
/// What stands behind it is BadToken, where it has no cause of its own; IdRange, of the first reference out of range, comes after
/// that. The value, or the first fault with its line; or want of memory, which says nothing of the bytes. `O(n)`, in one pass.
pub fn read_value(alloc: Global, bytes: &[u8]) -> Result<Value, Refusal<P21Fault>>
    // What is read is spelled so.
    ensures found { IfOk result (λ x. ReadsValue bytes.now x) }
    // What is spelled so is read, unless memory runs out.
    ensures only { (x : Value) → ReadsValue bytes.now x → Answers (λ x. x) result (Ok x) }
    // The value that the bytes spell, or which fault is the first, and in which line.
    ensures exact { Answers (λ x. x) result (spec.value_reading bytes.now) }
{
    answer(bytes, whole_value(alloc, bytes))
}

/// Reads one instance, `#n=KEYWORD(parameters);` (a simple entity instance of ISO 10303-21), with nothing
/// around it but blanks and comments.
///
/// What stands behind it is BadToken, where it has no cause of its own; IdRange, of the number or the first reference out of
/// range, comes after that. The instance, or the first fault with its line; or want of memory, which says nothing of the bytes.
/// `O(n)`, in one pass.
pub fn read_instance(alloc: Global, bytes: &[u8]) -> Result<Instance, Refusal<P21Fault>>
    // What is read is spelled so.
    ensures found { IfOk result (λ x. ReadsInstance bytes.now x) }
    // What is spelled so is read, unless memory runs out.
    ensures only { (x : Instance) → ReadsInstance bytes.now x → Answers (λ x. x) result (Ok x) }
    // The instance that the bytes spell, or which fault is the first, and in which line.
    ensures exact { Answers (λ x. x) result (spec.instance_reading bytes.now) }
{
    answer(bytes, whole_instance(alloc, bytes))
}

/// Reads an exchange file (ISO 10303-21) of at most `most` instances.
///
/// A file is `ISO-10303-21;`, a section `HEADER;` with FILE_DESCRIPTION, FILE_NAME, FILE_SCHEMA in this order and further header
/// entities, one or more sections `DATA;` or `DATA(parameters);`, and `END-ISO-10303-21;`. What follows isn't looked at. A byte
/// order mark is the caller's to skip.
///
/// The file, or the first fault with its line, where the faults of one instance come in this order: that of a token up to its
/// semicolon, IdRange, IdTwice, TooManyInstances; or want of memory, which says nothing of the bytes. `O(n)`, in one pass.
pub fn read_file(alloc: Global, bytes: &[u8], most: u32) -> Result<P21File, Refusal<P21Fault>>
    // What is read is spelled so.
    ensures found { IfOk result (λ x. ReadsFile most bytes.now x) }
    // What is spelled so is read, unless memory runs out.
    ensures only { (x : P21File) → ReadsFile most bytes.now x → Answers (λ x. x) result (Ok x) }
    // The file that the bytes spell, or which fault is the first, and in which line.
    ensures exact { Answers (λ x. x) result (spec.file_reading most bytes.now) }
{
    answer(bytes, whole_file(alloc, bytes, most))
}
