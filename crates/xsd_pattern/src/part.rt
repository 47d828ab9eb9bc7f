//! Parts with their repeats, groups, and the sides between bars.

ghost use Rattle.reading.specs.Reading.{Gives};
ghost use Rattle.xsd_pattern.specs.Parts as spec;

use crate::characters::is_reserved;
use crate::fault::PatternCause;
use crate::repeat::repeat_here;
use crate::set::{any_character, class, escape, literal};
use crate::sides::Sides;
use pattern_tree::Tree;
use reading::{CharCursor, Stop};
use sqlite_items::Boxed;
use std::alloc::Global;

type Stopped<'a> = Stop<'a, PatternCause>;

/// The part with the repeat that stands behind it, if one does.
#[tactic(auto, unfolding(crate::specs::Parts::repeated))]
fn repeated<'a>(alloc: Global, part: Tree, cursor: &mut CharCursor<'a>) -> Result<Tree, Stopped<'a>>
    ensures { Gives (λ x. x) result cursor.new (spec.repeated (part, cursor.old)) }
{
    match repeat_here(cursor)? {
        None => Ok(part),
        Some(times) => Ok(Tree::Repeat(Boxed::new(alloc, part)?, times)),
    }
}

/// The end of a group, by its parenthesis.
#[tactic(auto, unfolding(crate::specs::Parts::group_end))]
fn group_end<'a>(sides: Sides, cursor: &mut CharCursor<'a>) -> Result<Tree, Stopped<'a>>
    ensures { Gives (λ x. x) result cursor.new (spec.group_end (sides, cursor.old)) }
{
    let here = cursor.rest();
    match cursor.next() {
        Some(')') => Ok(sides.choice()?),
        _ => Err(Stop::Refused(PatternCause::Syntax, here)),
    }
}

/// A part without its repeat, in which groups nest no deeper than `depth`.
#[tactic(auto, using(crate::proofs::Depth::depth_laws), unfolding(crate::specs::Parts::atom))]
#[cycle(read)]
fn atom<'a>(alloc: Global, depth: usize, cursor: &mut CharCursor<'a>) -> Result<Tree, Stopped<'a>>
    ensures { Gives (λ x. x) result cursor.new (spec.atom (spec.below depth) cursor.old) }
{
    let here = cursor.rest();
    match cursor.next() {
        Some('(') => {
            if depth == 0 {
                return Err(Stop::Refused(PatternCause::TooDeep, here));
            }
            let sides = read_sides(alloc, depth - 1, cursor)?;
            group_end(sides, cursor)
        }
        Some('[') => Ok(Tree::Set(class(alloc, cursor)?)),
        Some('\\') => Ok(Tree::Set(escape(alloc, cursor)?)),
        Some('.') => Ok(Tree::Set(any_character(alloc)?)),
        Some(found) if !is_reserved(found) => Ok(Tree::Set(literal(alloc, found)?)),
        _ => Err(Stop::Refused(PatternCause::Syntax, here)),
    }
}

/// Reads one part or bar, or the end of the sides, which stays; whether to go on.
#[tactic(auto, using(crate::proofs::Depth::depth_laws), unfolding(crate::specs::Parts::sides_turn))]
#[cycle(read)]
fn sides_turn<'a>(
    alloc: Global,
    depth: usize,
    cursor: &mut CharCursor<'a>,
    sides: &mut Sides,
) -> Result<bool, Stopped<'a>>
    ensures { Gives (λ more. (more, sides.new)) result cursor.new (spec.sides_turn (spec.below depth) sides.old
        cursor.old) }
{
    match cursor.peek() {
        None | Some(')') => Ok(false),
        Some('|') => {
            let _ = cursor.next();
            sides.bar(alloc)?;
            Ok(true)
        }
        Some(_) => {
            let part = atom(alloc, depth, cursor)?;
            let part = repeated(alloc, part, cursor)?;
            sides.parts.push(part)?;
            Ok(true)
        }
    }
}

/// The sides up to the end of a group, in which groups nest no deeper than `depth`.
#[tactic(auto, using(crate::proofs::Depth::depth_laws))]
#[cycle(read)]
pub(crate) fn read_sides<'a>(
    alloc: Global,
    depth: usize,
    cursor: &mut CharCursor<'a>,
) -> Result<Sides, Stopped<'a>>
    ensures { Gives (λ s. s) result cursor.new (spec.sides depth cursor.old) }
{
    let mut sides = Sides::new(alloc);
    for _ in 0..cursor.turns() {
        if !sides_turn(alloc, depth, cursor, &mut sides)? {
            return Ok(sides);
        }
    }
    Err(Stop::Refused(PatternCause::Syntax, cursor.rest()))
}
