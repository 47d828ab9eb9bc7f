//! One line of a script.

ghost use Rattle.std.specs.Prelude.{◌≡◌, ◌++◌, codes, MatchOption, IfOk, None, Some};
ghost use Rattle.narrow_forms.specs.Number.{Reads};
ghost use Rattle.narrow_forms.specs.ScriptLine as spec;

use crate::number::{OtherForm, read_number};
use audit_model::{Act, Edit};
use ifc_base::{Instance, Memory, Refusal};
use p21_read::read_instance;
use std::alloc::Global;

/// The most times that one line may work.
const MOST_WORK: u32 = 1_000_000;

/// What a line of a script says.
#[derive(Debug, Drop)]
pub(crate) enum Meaning {
    /// An empty line.
    Nothing,
    /// A line that is one of its phase.
    Does(Act),
    /// `sync`, which ends its phase.
    Ends,
}

/// The line without the carriage return that may end it.
#[tactic(auto, unfolding(crate::specs::ScriptLine::without_return))]
pub(crate) fn without_return(line: &[u8]) -> &[u8]
    ensures { result.now ≡ spec.without_return line.now }
{
    match line.strip_suffix(b"\r") {
        Some(text) => text,
        None => line,
    }
}

/// What stands behind the word at the front.
#[tactic(auto, unfolding(crate::specs::ScriptLine::behind_word))]
fn behind_word<'a>(word: &[u8], text: &'a [u8]) -> Option<&'a [u8]>
    ensures { MatchOption result (spec.behind_word word.now text.now ≡ None)
        (λ rest. spec.behind_word word.now text.now ≡ Some rest.now) }
{
    text.strip_prefix(word)
}

/// The text with a semicolon behind it.
fn with_semicolon(alloc: Global, text: &[u8]) -> Result<Vec<u8>, Memory>
    ensures { IfOk result (λ bytes. bytes.items ≡ text.now ++ codes ";") }
{
    let mut bytes = Vec::with_capacity(alloc, text.len() + 1)?;
    bytes.extend_from_slice(text)?;
    bytes.push(b';')?;
    Ok(bytes)
}

/// The instance that the bytes spell.
fn read_spelled(alloc: Global, bytes: &[u8]) -> Result<Instance, Refusal<OtherForm>>
    ensures { Reads (λ instance. instance) result (spec.spelled bytes.now) }
{
    match read_instance(alloc, bytes) {
        Ok(instance) => Ok(instance),
        Err(Refusal::Fault(_)) => Err(Refusal::Fault(OtherForm)),
        Err(Refusal::Memory) => Err(Refusal::Memory),
    }
}

/// The instance that the text spells, whose semicolon may be missing.
#[tactic(auto, unfolding(crate::specs::ScriptLine::added))]
fn read_added(alloc: Global, text: &[u8]) -> Result<Instance, Refusal<OtherForm>>
    ensures { Reads (λ instance. instance) result (spec.added text.now) }
{
    match read_spelled(alloc, text) {
        Ok(instance) => Ok(instance),
        Err(Refusal::Fault(_)) => {
            let bytes = with_semicolon(alloc, text)?;
            read_spelled(alloc, bytes.as_slice())
        }
        Err(Refusal::Memory) => Err(Refusal::Memory),
    }
}

/// How many times a line is to work.
fn read_work(text: &[u8]) -> Result<Act, Refusal<OtherForm>>
    ensures { Reads (λ act. act) result (spec.work_act text.now) }
{
    let times = read_number(text)?.get();
    if times > MOST_WORK {
        return Err(Refusal::Fault(OtherForm));
    }
    Ok(Act::Work(times))
}

/// A line of one word.
#[tactic(auto, unfolding(crate::specs::ScriptLine::word_act))]
fn word_act(line: &[u8]) -> Option<Act>
    ensures { result ≡ spec.word_act line.now }
{
    if line == b"open".as_slice() {
        Some(Act::Begin)
    } else if line == b"commit".as_slice() {
        Some(Act::Commit)
    } else if line == b"publish".as_slice() {
        Some(Act::Publish)
    } else if line == b"take".as_slice() {
        Some(Act::Take)
    } else if line == b"give".as_slice() {
        Some(Act::Give)
    } else {
        None
    }
}

/// A line of a word and what it is about.
#[tactic(auto, unfolding(crate::specs::ScriptLine::longer_act))]
fn longer_act(alloc: Global, line: &[u8]) -> Result<Act, Refusal<OtherForm>>
    ensures { Reads (λ act. act) result (spec.longer_act line.now) }
{
    if let Some(text) = behind_word(b"add ", line) {
        let instance = read_added(alloc, text)?;
        return Ok(Act::Change(Edit::Add(instance)));
    }
    if let Some(text) = behind_word(b"remove #", line) {
        let id = read_number(text)?;
        return Ok(Act::Change(Edit::Remove(id)));
    }
    if let Some(text) = behind_word(b"work ", line) {
        return read_work(text);
    }
    Err(Refusal::Fault(OtherForm))
}

/// What the line says. `O(length of the line)`.
#[tactic(auto, unfolding(crate::specs::ScriptLine::line_meaning))]
pub(crate) fn read_meaning(alloc: Global, line: &[u8]) -> Result<Meaning, Refusal<OtherForm>>
    ensures { Reads (λ meaning. meaning) result (spec.line_meaning line.now) }
{
    if line.is_empty() {
        return Ok(Meaning::Nothing);
    }
    if line == b"sync".as_slice() {
        return Ok(Meaning::Ends);
    }
    if let Some(act) = word_act(line) {
        return Ok(Meaning::Does(act));
    }
    let act = longer_act(alloc, line)?;
    Ok(Meaning::Does(act))
}
