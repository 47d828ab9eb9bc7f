//! One line of a script.

ghost use Rattle.std.specs.Prelude.{◌≡◌, MatchOption, None, Some, option_map};
ghost use Rattle.std.specs.Str.{is_utf8};
ghost use Rattle.script_read.specs.Bytes.{Reads, as_code};
ghost use Rattle.script_read.specs.LineForm as spec;
ghost use Rattle.script_read.specs.Said as word;
ghost use Rattle.script_read.specs.Said.{editor};

use crate::bytes::{LineBytes, NoForm};
use crate::edit::{add_line, remove_line, set_line};
use crate::editors::Editor;
use audit_model::Act;
use ifc_base::Refusal;
use std::alloc::Global;
use std::str;

/// The most times that one line may work.
const MOST_WORK: u32 = 1_000_000;

/// What a line of a script says.
#[derive(Debug, Drop)]
pub(crate) enum Meaning {
    /// An empty line.
    Nothing,
    /// The lines that follow are of this editor.
    Editor(Editor),
    /// The lines that follow are of an editor whom there isn't.
    Nobody,
    /// An act of the editor whose line it is.
    Does(Act),
    /// The phase ends.
    Sync,
}

/// Whether the line is UTF-8. `O(length of the line)`.
#[tactic(auto, using(crate::proofs::Texts::text_laws))]
fn is_text(line: &[u8]) -> bool
    ensures { result ≡ is_utf8 line.now }
{
    match str::from_utf8(line) {
        Ok(_) => true,
        Err(_) => false,
    }
}

/// What stands behind the word at the front.
#[tactic(auto, unfolding(crate::specs::LineForm::behind))]
fn behind<'a>(word: &[u8], line: &'a [u8]) -> Option<&'a [u8]>
    ensures { MatchOption result (spec.behind word.now line.now ≡ None)
        (λ rest. spec.behind word.now line.now ≡ Some rest.now) }
{
    line.strip_prefix(word)
}

/// The lines that follow are of the editor of this number, if there is one.
fn named(number: u32) -> Meaning
    ensures { result ≡ as_code (editor number) }
{
    match Editor::new(number) {
        Some(editor) => Meaning::Editor(editor),
        None => Meaning::Nobody,
    }
}

/// What stands behind `editor`.
#[tactic(auto, using(crate::proofs::Numbers::editor_laws))]
fn editor_line(text: &[u8]) -> Result<Meaning, Refusal<NoForm>>
    ensures { Reads (λ meaning. meaning) result (option_map as_code (spec.editor_line text.now)) }
{
    let mut bytes = LineBytes::new(text);
    bytes.pass_blanks()?;
    let number = bytes.last_number()?;
    Ok(named(number))
}

/// One line may work so many times.
fn is_work(times: u32) -> bool
    ensures { result ≡ word.is_work times }
{
    times >= 1 && times <= MOST_WORK
}

/// What stands behind `work`.
#[tactic(auto, using(crate::proofs::Numbers::work_laws))]
fn work_line(text: &[u8]) -> Result<Act, Refusal<NoForm>>
    ensures { Reads (λ act. act) result (spec.work_line text.now) }
{
    let mut bytes = LineBytes::new(text);
    bytes.pass_blanks()?;
    if bytes.begins_with_zero() {
        return Err(Refusal::Fault(NoForm));
    }
    let times = bytes.last_number()?;
    if !is_work(times) {
        return Err(Refusal::Fault(NoForm));
    }
    Ok(Act::Work(times))
}

/// A line of one word.
#[tactic(auto, unfolding(crate::specs::LineForm::word_line))]
fn word_line(line: &[u8]) -> Option<Act>
    ensures { result ≡ spec.word_line line.now }
{
    if line == b"open".as_slice() {
        Some(Act::Begin)
    } else if line == b"commit".as_slice() {
        Some(Act::Commit)
    } else if line == b"publish".as_slice() {
        Some(Act::Publish)
    } else if line == b"take".as_slice() {
        Some(Act::Take)
    } else if line == b"give".as_slice() {
        Some(Act::Give)
    } else {
        None
    }
}

/// A line of more words that is an act.
#[tactic(auto, unfolding(crate::specs::LineForm::longer_line))]
fn longer_line(alloc: Global, line: &[u8]) -> Result<Act, Refusal<NoForm>>
    ensures { Reads (λ act. act) result (spec.longer_line line.now) }
{
    if let Some(text) = behind(b"add", line) {
        return add_line(alloc, text);
    }
    if let Some(text) = behind(b"set", line) {
        return set_line(alloc, text);
    }
    if let Some(text) = behind(b"remove", line) {
        return remove_line(text);
    }
    if let Some(text) = behind(b"work", line) {
        return work_line(text);
    }
    Err(Refusal::Fault(NoForm))
}

/// A line that is an act.
#[tactic(auto, unfolding(crate::specs::LineForm::act_line))]
fn act_line(alloc: Global, line: &[u8]) -> Result<Act, Refusal<NoForm>>
    ensures { Reads (λ act. act) result (spec.act_line line.now) }
{
    match word_line(line) {
        Some(act) => Ok(act),
        None => longer_line(alloc, line),
    }
}

/// What a line of one of the forms says.
#[tactic(auto, unfolding(crate::specs::LineForm::form))]
fn form(alloc: Global, line: &[u8]) -> Result<Meaning, Refusal<NoForm>>
    ensures { Reads (λ meaning. meaning) result (option_map as_code (spec.form line.now)) }
{
    if line.is_empty() {
        return Ok(Meaning::Nothing);
    }
    if line == b"sync".as_slice() {
        return Ok(Meaning::Sync);
    }
    if let Some(text) = behind(b"editor", line) {
        return editor_line(text);
    }
    let act = act_line(alloc, line)?;
    Ok(Meaning::Does(act))
}

/// What the line says. `O(length of the line)`.
#[tactic(auto, unfolding(crate::specs::LineForm::meaning))]
pub(crate) fn read_meaning(alloc: Global, line: &[u8]) -> Result<Meaning, Refusal<NoForm>>
    ensures { Reads (λ meaning. meaning) result (option_map as_code (spec.meaning line.now)) }
{
    if !is_text(line) {
        return Err(Refusal::Fault(NoForm));
    }
    form(alloc, line)
}
