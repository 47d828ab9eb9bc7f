//! Why a text isn't read.

use reading::Fault;
use thiserror::Error;

/// Why a file, an instance or a value isn't read (ISO 10303-21, exchange structure).
#[derive(Clone, Copy, Debug, PartialEq, Eq, Error)]
pub enum P21Cause {
    /// A string holds bytes that aren't UTF-8.
    #[error("a string holds bytes that are not UTF-8")]
    BadText,
    /// A string asks for another page than A.
    #[error("a string asks for another page than A")]
    OtherPage,
    /// A string holds a backslash that begins no directive, a lone surrogate, or a code that is no character's.
    #[error("a string holds a directive that is none")]
    BadDirective,
    /// A section of another kind stands where a section or the closing word may stand.
    #[error("a section that is not read")]
    OtherSection,
    /// An instance of more than one entity: a parenthesis behind `#n=`.
    #[error("an instance of more than one entity")]
    ComplexInstance,
    /// The input ends within a comment, a string, a binary or a parenthesis.
    #[error("the input ends within what this line opened")]
    Unclosed,
    /// An instance has the id of one before it.
    #[error("an instance has the id of one before it")]
    IdTwice,
    /// The id of an instance, or of a reference, isn't from 1 to 2,147,483,647.
    #[error("an id that is not from 1 to 2,147,483,647")]
    IdRange,
    /// A parenthesis of a list or a typed parameter opens past the sixteenth.
    #[error("more than 16 parentheses within one another")]
    TooDeep,
    /// There are more instances than the caller allows.
    #[error("more instances than are taken")]
    TooManyInstances,
    /// The input ends elsewhere.
    #[error("the input ends too early")]
    NoEnd,
    /// A token that doesn't belong where it stands, or a byte that begins none, with no other cause.
    #[error("a token that does not belong here")]
    BadToken,
}

/// The first fault: its cause, and the line in which the refused token begins, from 1.
///
/// The line of Unclosed is that of the innermost thing left open, and that of NoEnd is 1 plus the number of line feeds.
pub type P21Fault = Fault<P21Cause>;
