//! Patterns.

ghost use Rattle.std.specs.Prelude.{◌≡◌, ◌≤◌, ◌↔◌, chars, length, nat_le, IsTrue, Ok, IfOk};
ghost use Rattle.reading.specs.Codes.{codes_of};
ghost use Rattle.reading.specs.Lines.{Answers};
ghost use Rattle.reading.specs.Reading.{Yields};
ghost use Rattle.pattern_tree.specs.declared.tree.Tree.{Tree};
ghost use Rattle.pattern_tree.specs.Matching.{Matches};
ghost use Rattle.xsd_pattern.specs.Grammar.{Parses};
ghost use Rattle.xsd_pattern.specs.Reading as spec;

use crate::fault::{PatternCause, PatternFault};
use crate::part::read_sides;
use crate::weight::is_light;
use ifc_base::{Memory, Refusal};
use pattern_tree::{Tree, matches};
use reading::{CharCursor, Stop, place_of};
use std::alloc::Global;
use std::marker::Model;

/// How many characters a pattern may have.
const MOST_CHARACTERS: usize = 1_000;

/// How many groups may stand one within the other.
const MOST_GROUPS: usize = 32;

/// A pattern of a restriction (IDS 1.0, xs:pattern in the part that this product builds). Contracts see its tree.
#[derive(Drop)]
pub struct Pattern {
    tree: Tree,
}

impl Model for Pattern {
    ghost use Rattle.std.specs.Coded.{codes};
    ghost use Rattle.pattern_tree.specs.declared.tree.Tree.{Tree};
    ghost use Rattle.pattern_tree.specs.contracts.tree.Tree as kept;

    ghost Value = { Tree };

    ghost coded = { Prim.hlevel (codes, kept.the_row.coded) };

    ghost view = { λ pattern. pattern.tree };
}

/// Whether the text has at most 1,000 characters. `O(1)`: it looks at no more of them.
fn is_short(text: &str) -> bool
    ensures { result ≡ nat_le (length (chars text.now)) 1000 }
{
    let mut cursor = CharCursor::new(text);
    for _ in 0..MOST_CHARACTERS {
        if cursor.next().is_none() {
            return true;
        }
    }
    cursor.peek().is_none()
}

/// Reads from left to right, whatever the length and the weight.
#[tactic(auto, unfolding(crate::specs::Reading::whole, crate::specs::Reading::whole_end))]
fn whole(alloc: Global, text: &str) -> Result<Tree, Stop<'_, PatternCause>>
    ensures { Yields (λ x. x) result (spec.whole (chars text.now)) }
{
    let mut cursor = CharCursor::new(text);
    let sides = read_sides(alloc, MOST_GROUPS, &mut cursor)?;
    match cursor.peek() {
        None => Ok(sides.choice()?),
        Some(_) => Err(Stop::Refused(PatternCause::Syntax, cursor.rest())),
    }
}

/// The fault of this cause where the rest of the text begins.
#[tactic(auto, unfolding(reading::specs::Lines::place_of))]
fn located(text: &str, why: PatternCause, rest: &[u8]) -> PatternFault
    requires { length (chars text.now) ≤ 1000 }
    ensures { result ≡ spec.located (chars text.now) (record { why = why; at = codes_of rest.now }) }
{
    let start = CharCursor::new(text).rest();
    PatternFault {
        at: place_of(start, rest),
        why,
    }
}

/// What a call answers where reading this text stopped.
fn refusal(text: &str, stop: Stop<'_, PatternCause>) -> Refusal<PatternFault>
    requires { length (chars text.now) ≤ 1000 }
    ensures { result ≡ spec.refusal_of (chars text.now) stop.entry }
{
    match stop {
        Stop::Memory => Refusal::Memory,
        Stop::Refused(why, rest) => Refusal::Fault(located(text, why, rest)),
    }
}

/// A fault of the whole text.
fn of_all(why: PatternCause) -> PatternFault
    ensures { result ≡ spec.of_all why }
{
    PatternFault { at: 0, why }
}

/// The pattern, unless it weighs too much.
fn weighed(tree: Tree) -> Result<Pattern, Refusal<PatternFault>>
    ensures { Answers (λ pattern. pattern) result (spec.weighed tree) }
{
    if is_light(&tree) {
        Ok(Pattern { tree })
    } else {
        Err(Refusal::Fault(of_all(PatternCause::TooManyRepeats)))
    }
}

/// Reads the text of at most 1,000 characters.
fn answered(alloc: Global, text: &str) -> Result<Pattern, Refusal<PatternFault>>
    requires { length (chars text.now) ≤ 1000 }
    ensures { Answers (λ pattern. pattern) result (spec.answered (chars text.now) (spec.whole (chars text.now))) }
{
    match whole(alloc, text) {
        Ok(tree) => weighed(tree),
        Err(stop) => Err(refusal(text, stop)),
    }
}

impl Pattern {
    /// Reads a pattern: literals, escapes, classes, repeats, groups and `|` (XML Schema Part 2, appendix F, in the part that is
    /// built here). The fault is the first one from the left, at the number of its character, from 1, or at one more than there
    /// are characters where the text ends too early. More than 1,000 characters come before all others, and a weight over 100,000
    /// behind them; both are at 0. `O(n)` in the length of the text; its recursion is as deep as groups nest, at most 32.
    pub fn read(alloc: Global, text: &str) -> Result<Pattern, Refusal<PatternFault>>
        // What is read is the text's tree.
        ensures found { IfOk result (λ pattern. Parses (chars text.now) pattern) }
        // A text that has a tree is read, unless memory runs out.
        ensures only { (x : Tree) → Parses (chars text.now) x → Answers (λ pattern. pattern) result (Ok x) }
        // Which fault it is, and where.
        ensures exact { Answers (λ pattern. pattern) result (spec.reading (chars text.now)) }
    {
        if is_short(text) {
            answered(alloc, text)
        } else {
            Err(Refusal::Fault(of_all(PatternCause::TooLong)))
        }
    }

    /// Whether the pattern matches the text, as a whole. The answer is the definition's for every text;
    /// the only refusal is want of memory. All ways through the pattern are followed at once and none is
    /// gone back (`pattern_tree::matches`): for a weight `w` at most `17 w` steps for each character of
    /// the text, however deep groups nest, and one binary search for each set, of which there are at most
    /// `w`, each with fewer than 1,000 parts: at most 12 comparisons, and six classes. So a character
    /// takes `O(w)`. Before the first `O(d w + p log p)`, for groups `d` deep and `p` characters of
    /// pattern. Memory is `O(w + p)`.
    pub fn matches(&self, alloc: Global, text: &str) -> Result<bool, Memory>
        ensures { IfOk result (λ answer. IsTrue answer ↔ Matches self.now (chars text.now)) }
    {
        matches(alloc, &self.tree, text)
    }
}
