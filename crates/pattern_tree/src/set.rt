ghost use Rattle.std.specs.Prelude.{◌≡◌, map, ◌++◌, OnOk};
ghost use Rattle.pattern_tree.specs.Trees.{is_digit, is_word, is_space, is_of_class};
ghost use Rattle.pattern_tree.specs.Trees.{values, sets_of, one_after_another};

use crate::tree::{Class, Set, Tree};
use ifc_base::Memory;

/// A digit, 0 to 9.
fn is_digit(c: char) -> bool
    ensures { result ≡ is_digit c }
{
    matches!(c, '0'..='9')
}

/// A letter, a digit or a sign of `\w`.
fn is_word(c: char) -> bool
    ensures { result ≡ is_word c }
{
    matches!(c, '0'..='9' | 'A'..='Z' | 'a'..='z' | '$' | '+' | '<'..='>' | '^' | '`' | '|' | '~')
}

/// A tab, a line feed, a carriage return or a space.
fn is_space(c: char) -> bool
    ensures { result ≡ is_space c }
{
    matches!(c, '\t' | '\n' | '\r' | ' ')
}

/// Whether the character is of the class. `O(1)`.
#[tactic(auto, unfolding(crate::specs::Trees::is_of_class))]
pub(crate) fn is_of_class(class: Class, c: char) -> bool
    ensures { result ≡ is_of_class class c }
{
    match class {
        Class::Digit => is_digit(c),
        Class::Word => is_word(c),
        Class::Space => is_space(c),
        Class::NotDigit => !is_digit(c),
        Class::NotWord => !is_word(c),
        Class::NotSpace => !is_space(c),
    }
}

/// Appends the sets of the pattern's single-character parts, from left to right. `O(n)` in the number of
/// nodes of the pattern; its recursion is as deep as the pattern.
#[cycle(sets)]
pub(crate) fn push_sets<'a>(tree: &'a Tree, sets: &mut Vec<&'a Set>) -> Result<(), Memory>
    ensures { OnOk result (values sets.new.items ≡ values sets.old.items ++ sets_of tree.now) }
{
    match tree {
        Tree::Set(set) => {
            sets.push(set)?;
            Ok(())
        }
        Tree::Sequence(parts) => push_all_sets(parts.as_slice(), sets),
        Tree::Choice(sides) => push_all_sets(sides.as_slice(), sets),
        Tree::Repeat(part, _) => push_sets(part.get(), sets),
    }
}

/// Ditto for the patterns one after another.
#[cycle(sets)]
fn push_all_sets<'a>(trees: &'a [Tree], sets: &mut Vec<&'a Set>) -> Result<(), Memory>
    ensures { OnOk result (values sets.new.items ≡ values sets.old.items ++ one_after_another (map sets_of trees.now)) }
{
    for tree in trees {
        push_sets(tree, sets)?;
    }
    Ok(())
}
