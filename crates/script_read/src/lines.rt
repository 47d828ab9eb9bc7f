//! Bytes line by line.

ghost use Rattle.std.specs.Prelude.{◌≡◌, MatchOption, OnSome, length, position, ◌<◌, ◌==◌};
ghost use Rattle.script_read.specs.Lines as spec;
ghost use Rattle.script_read.specs.Lines.{Pieces, cut};

use std::marker::Model;

/// Bytes that are still to be read. Contracts see them as a list.
#[derive(Drop)]
pub(crate) struct LineReader<'a> {
    rest: &'a [u8],
}

impl<'a> Model for LineReader<'a> {
    ghost use Rattle.std.specs.Prelude.{ℕ, List};

    ghost Value = { List ℕ };

    ghost view = { λ reader. reader.rest.now };
}

impl<'a> LineReader<'a> {
    /// A reader of all these bytes.
    pub(crate) fn new(bytes: &'a [u8]) -> LineReader<'a>
        ensures { result ≡ bytes.now }
    {
        LineReader { rest: bytes }
    }

    /// What is still to be read.
    pub(crate) fn rest(&self) -> &'a [u8]
        ensures { result.now ≡ self.now }
    {
        self.rest
    }

    /// Takes what stands before the next line feed, and the line feed. Where none comes any more, nothing is taken.
    /// `O(length of the line)`.
    pub(crate) fn next_line(&mut self) -> Option<&'a [u8]>
        ensures taken { MatchOption result ((cut self.old ≡ Pieces.last self.old)
            × (self.new ≡ self.old)) (λ line. cut self.old ≡ Pieces.before_feed line.now (cut self.new)) }
        ensures shorter { OnSome result (length self.new < length self.old) }
    {
        let Some(end) = first_feed(self.rest) else {
            return None;
        };
        let line = &self.rest[..end];
        self.rest = &self.rest[end + 1..];
        Some(line)
    }
}

/// Where the first line feed stands, if there is one.
fn first_feed(bytes: &[u8]) -> Option<usize>
    ensures { result ≡ position (λ byte. byte == 10) bytes.now }
{
    bytes.iter().position(|byte| *byte == b'\n')
}

/// What stands before a line feed without the carriage return that may end it.
#[tactic(auto, unfolding(crate::specs::Lines::without_return))]
pub(crate) fn without_return(line: &[u8]) -> &[u8]
    ensures { result.now ≡ spec.without_return line.now }
{
    match line.strip_suffix(b"\r") {
        Some(text) => text,
        None => line,
    }
}
