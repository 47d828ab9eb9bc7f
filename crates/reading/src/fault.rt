//! What a reader answers where it doesn't give a value.

ghost use Rattle.std.specs.Prelude.{◌≡◌, ◌+◌, min, length};
ghost use Rattle.reading.specs.Codes.{codes_of};
ghost use Rattle.reading.specs.Lines as spec;

use crate::cursor::Cursor;
use crate::stop::Stop;
use ifc_base::Refusal;
use std::fmt::Display;
use thiserror::Error;

/// The first fault of a text: its cause, and the line in which the refused token begins, from 1. A line
/// past 4,294,967,295 is that.
#[derive(Clone, Copy, Debug, PartialEq, Eq, Error)]
#[error_bound(C: Display)]
#[error("line {line}: {why}")]
pub struct Fault<C> {
    pub line: u32,
    pub why: C,
}

/// How many line feeds the bytes have. `O(n)`.
#[tactic(auto, using(crate::proofs::Says::feeds_count))]
fn byte_line_feeds(bytes: &[u8]) -> usize
    ensures { result ≡ spec.line_feeds bytes.now }
{
    bytes.iter().filter(|byte| **byte == b'\n').count()
}

/// How many line feeds there are in what the bytes say. `O(n)`.
#[tactic(auto, using(crate::proofs::Says::feeds_codes))]
fn line_feeds(bytes: &[u8]) -> usize
    ensures { result ≡ spec.line_feeds (codes_of bytes.now) }
{
    byte_line_feeds(bytes)
}

/// The number, or the greatest that fits.
fn numbered(before: usize) -> u32
    ensures { result ≡ min (before + 1) 0xFFFF_FFFF }
{
    u32::try_from(before).unwrap_or(u32::MAX).saturating_add(1)
}

/// The line in which `rest`, the end of the text, begins: 1 plus the line feeds before it. `O(n)`.
#[tactic(auto, unfolding(crate::specs::Lines::line_of))]
pub fn line_of(text: &[u8], rest: &[u8]) -> u32
    ensures { result ≡ spec.line_of (codes_of text.now) (codes_of rest.now) }
{
    numbered(line_feeds(text).saturating_sub(line_feeds(rest)))
}

/// What a top call answers where reading this text stopped: want of memory, or the fault with its line. `O(n)`.
pub fn refusal<C>(text: &[u8], stop: Stop<'_, C>) -> Refusal<Fault<C>>
    ensures { result ≡ spec.refusal_of (codes_of text.now) stop.entry }
{
    match stop {
        Stop::Memory => Refusal::Memory,
        Stop::Refused(why, at) => Refusal::Fault(Fault {
            line: line_of(text, at),
            why,
        }),
    }
}

/// The value, or what a top call answers where reading this text stopped. `O(n)` where it stopped, else `O(1)`.
pub fn answer<T, C>(text: &[u8], ended: Result<T, Stop<'_, C>>) -> Result<T, Refusal<Fault<C>>>
    ensures { result ≡ spec.answer_of (codes_of text.now) ended.entry }
{
    match ended {
        Ok(value) => Ok(value),
        Err(stop) => Err(refusal(text, stop)),
    }
}

/// How many characters, and bytes that belong to none, there are. `O(n)`.
#[tactic(auto, using(crate::proofs::Lines::length_codes))]
fn code_count(bytes: &[u8]) -> usize
    ensures { result ≡ length (codes_of bytes.now) }
{
    let mut cursor = Cursor::new(bytes);
    for count in 0..bytes.len() {
        if cursor.next().is_none() {
            return count;
        }
    }
    bytes.len()
}

/// The place of the character, from 1, with which `rest`, the end of the text, begins: 1 plus the characters before it. `O(n)`.
#[tactic(auto, unfolding(crate::specs::Lines::place_of))]
pub fn place_of(text: &[u8], rest: &[u8]) -> u32
    ensures { result ≡ spec.place_of (codes_of text.now) (codes_of rest.now) }
{
    numbered(code_count(text).saturating_sub(code_count(rest)))
}
