ghost use Rattle.std.specs.Prelude.{◌≡◌, ◌++◌, ◌||◌, ℕ, map, true, IsTrue, IfOk, OnOk};
ghost use Rattle.std.specs.List.{list_any};
ghost use Rattle.pattern_tree.specs.Trees.{is_in_part, is_of_class, values, hits_in};
ghost use Rattle.pattern_tree.specs.Searching.{is_among, is_found, found_in, AreRising, AreInOrder, Serves};

use crate::range::{Range, is_in_ranges, put_in_order};
use crate::set::is_of_class;
use crate::tree::{Class, Part, Set};
use ifc_base::Memory;
use std::alloc::Global;

/// A set as it is searched.
#[derive(Debug, Drop)]
pub(crate) struct SearchSet {
    /// Whether the set holds the characters that are in none of the parts.
    negated: bool,
    /// The ranges among its parts, in order: neither their first characters fall nor their last ones.
    ranges: Vec<Range>,
    /// The classes among its parts, each once.
    classes: Vec<Class>,
}

/// Whether the class is among these.
fn has_class(classes: &[Class], class: Class) -> bool
    ensures { IsTrue result → (c : ℕ) → list_any (λ known. is_of_class known c) classes.now
        ≡ (list_any (λ known. is_of_class known c) classes.now || is_of_class class c) }
{
    classes.contains(&class)
}

/// Adds a part: a range, or a class that isn't there yet.
fn push_part(part: Part, ranges: &mut Vec<Range>, classes: &mut Vec<Class>) -> Result<(), Memory>
    ensures { OnOk result ((c : ℕ) → is_among ranges.new.items classes.new.items c
        ≡ (is_among ranges.old.items classes.old.items c || is_in_part c part)) }
{
    match part {
        Part::Range(first, last) => ranges.push(Range { first, last })?,
        Part::Class(class) => {
            if !has_class(classes.as_slice(), class) {
                classes.push(class)?;
            }
        }
    }
    Ok(())
}

/// Adds the parts.
fn push_parts(
    parts: &[Part],
    ranges: &mut Vec<Range>,
    classes: &mut Vec<Class>,
) -> Result<(), Memory>
    ensures { OnOk result ((c : ℕ) → is_among ranges.new.items classes.new.items c
        ≡ (is_among ranges.old.items classes.old.items c || list_any (is_in_part c) parts.now)) }
{
    for part in parts {
        push_part(*part, ranges, classes)?;
    }
    Ok(())
}

/// The set, for searches. `O(n log n)` in the number of its parts.
fn search_set(alloc: Global, set: &Set) -> Result<SearchSet, Memory>
    ensures { IfOk result (λ search. Serves search set.now) }
{
    let mut ranges = Vec::new(alloc);
    let mut classes = Vec::new(alloc);
    push_parts(set.parts.as_slice(), &mut ranges, &mut classes)?;
    put_in_order(ranges.as_mut_slice());
    Ok(SearchSet {
        negated: set.negated,
        ranges,
        classes,
    })
}

/// The sets, for searches. `O(n log n)` in the number of their parts.
pub(crate) fn search_sets(alloc: Global, sets: &[&Set]) -> Result<Vec<SearchSet>, Memory>
    ensures ordered { IfOk result (λ searches. AreInOrder searches.items) }
    ensures same { IfOk result (λ searches. (c : ℕ) → found_in searches.items c ≡ hits_in (values sets.now) c) }
{
    let mut searches = Vec::with_capacity(alloc, sets.len())?;
    for set in sets {
        searches.push(search_set(alloc, set)?)?;
    }
    Ok(searches)
}

/// Whether the character is of one of the classes.
fn is_of_any(classes: &[Class], c: char) -> bool
    ensures { result ≡ list_any (λ class. is_of_class class c) classes.now }
{
    classes.iter().any(|class| is_of_class(*class, c))
}

/// Whether the set holds the character. `O(log n)` in the number of its parts.
fn is_found(set: &SearchSet, c: char) -> bool
    requires { AreRising set.now.ranges.items }
    ensures { result ≡ is_found set.now c }
{
    let found = is_in_ranges(set.ranges.as_slice(), c) || is_of_any(set.classes.as_slice(), c);
    if set.negated { !found } else { found }
}

/// Appends, for each of the sets, whether it holds the character. `O(s log n)` for `s` sets of at most `n` parts.
pub(crate) fn push_hits(sets: &[SearchSet], c: char, hits: &mut Vec<bool>) -> Result<(), Memory>
    requires { AreInOrder sets.now }
    ensures { OnOk result (hits.new.items ≡ hits.old.items ++ found_in sets.now c) }
{
    for set in sets {
        hits.push(is_found(set, c))?;
    }
    Ok(())
}
