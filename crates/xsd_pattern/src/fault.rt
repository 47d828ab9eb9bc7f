//! Why a text is no pattern.

use thiserror::Error;

/// The cause of a fault.
#[derive(Clone, Copy, Debug, PartialEq, Eq, Error)]
pub enum PatternCause {
    /// A character with which no pattern goes on, an end that comes too early, or bounds of a repeat in the wrong order.
    #[error("this does not belong here")]
    Syntax,
    /// More than 1,000 characters.
    #[error("more than 1,000 characters")]
    TooLong,
    /// A group within more than 31 others.
    #[error("a group within more than 31 others")]
    TooDeep,
    /// A bound of a repeat over 1,000, or a weight over 100,000.
    #[error("a bound over 1,000, or a weight over 100,000")]
    TooManyRepeats,
}

/// The first fault of a text, and its place: the number of a character, from 1, or 0 for the whole text.
#[derive(Clone, Copy, Debug, PartialEq, Eq, Error)]
#[error("character {at}: {why}")]
pub struct PatternFault {
    pub at: u32,
    pub why: PatternCause,
}
