//! Bytes line by line: a line is what stands before a line feed.

ghost use Rattle.std.specs.Prelude.{◌≡◌, MatchOption, OnSome, length, position, ◌<◌, ◌==◌};
ghost use Rattle.narrow_forms.specs.Lines.{Lines, cut, listed, line_at};

use crate::fault::LineFault;
use std::marker::Model;

/// Bytes that are still to be read. Contracts see them as a list.
#[derive(Drop)]
pub(crate) struct LineReader<'a> {
    rest: &'a [u8],
}

impl<'a> Model for LineReader<'a> {
    ghost use Rattle.std.specs.Prelude.{ℕ, List};

    ghost Value = { List ℕ };

    ghost view = { λ reader. reader.rest.now };
}

impl<'a> LineReader<'a> {
    /// A reader of all these bytes.
    pub(crate) fn new(bytes: &'a [u8]) -> LineReader<'a>
        ensures { result ≡ bytes.now }
    {
        LineReader { rest: bytes }
    }

    /// What is still to be read.
    pub(crate) fn rest(&self) -> &'a [u8]
        ensures { result.now ≡ self.now }
    {
        self.rest
    }

    /// Takes the next line, without its line feed. Where no line feed comes any more, nothing is taken. `O(length of the line)`.
    pub(crate) fn next_line(&mut self) -> Option<&'a [u8]>
        ensures taken { MatchOption result ((cut self.old ≡ Lines.left self.old)
            × (self.new ≡ self.old)) (λ line. cut self.old ≡ Lines.line line.now (cut self.new)) }
        ensures shorter { OnSome result (length self.new < length self.old) }
    {
        let Some(end) = first_feed(self.rest) else {
            return None;
        };
        let line = &self.rest[..end];
        self.rest = &self.rest[end + 1..];
        Some(line)
    }
}

/// Where the first line feed stands, if there is one.
fn first_feed(bytes: &[u8]) -> Option<usize>
    ensures { result ≡ position (λ byte. byte == 10) bytes.now }
{
    bytes.iter().position(|byte| *byte == b'\n')
}

#[tactic(auto, using(crate::proofs::CutLemmas::line_total))]
/// How many line feeds there are, which is how many lines.
fn line_feeds(bytes: &[u8]) -> usize
    ensures { result ≡ length (listed (cut bytes.now)) }
{
    bytes.iter().filter(|byte| **byte == b'\n').count()
}

#[tactic(auto, unfolding(crate::specs::Lines::line_at))]
/// The fault at the line that begins the rest. `O(length of both)`.
pub(crate) fn line_at(bytes: &[u8], rest: &[u8]) -> LineFault
    ensures { result ≡ line_at bytes.now (cut rest.now) }
{
    let before = line_feeds(bytes).saturating_sub(line_feeds(rest));
    let line = u32::try_from(before).unwrap_or(u32::MAX).saturating_add(1);
    LineFault { line }
}
