//! What is read, and why it can't be.

use sqlite_items::Items;

/// A number, or a list of trees in parentheses.
#[derive(Drop)]
pub enum Tree {
    Number(u32),
    List(Items<Tree>),
}

/// Why the text isn't read.
#[derive(Clone, Copy, Debug, PartialEq, Eq)]
pub enum Cause {
    /// A byte outside comments that belongs to no character.
    BadByte,
    /// A number past 999,999,999.
    BadNumber,
    /// The input ends within a comment or a parenthesis.
    Unclosed,
    /// A parenthesis past the limit of depth.
    TooDeep,
    /// The input ends elsewhere.
    NoEnd,
    /// Any other token that doesn't belong there, or a character that begins none.
    BadToken,
}
