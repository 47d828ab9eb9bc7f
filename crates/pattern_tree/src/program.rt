ghost use Rattle.std.specs.Prelude.{◌≡◌, ◌++◌, [], ◌∷◌, length, IfOk, OnOk};
ghost use Rattle.pattern_tree.specs.Programs as spec;

use crate::tree::{Times, Tree};
use ifc_base::Memory;
use sqlite_items::Items;
use std::alloc::Global;

/// A step of a program. Steps hand a wire on from one to the next: it says whether the text so far can
/// end here, before the next character and behind it.
#[derive(Clone, Copy, Debug)]
pub(crate) enum Op {
    /// A single-character part, by the place of its set among the sets of the pattern.
    One(usize),
    /// Begins an alternation: keeps the wire.
    Fork,
    /// Ends a side of an alternation: gathers its wire and takes up the kept one again.
    Next,
    /// Ends an alternation: takes up what was gathered.
    Join,
    /// Begins a repeat without end, that ends so many steps further on.
    Enter(usize),
    /// Ends a repeat without end; the flag says that it may be left out.
    Leave(bool),
}

/// The program of a pattern or of a part of it.
#[derive(Debug, Drop)]
pub(crate) struct Part {
    /// The steps; where there are none, it matches the empty text alone.
    pub(crate) ops: Items<Op>,
    /// Whether it matches the empty text.
    pub(crate) empty: bool,
}

/// The sides of an alternation, as far as they were read.
#[derive(Debug, Drop)]
struct Sides {
    /// The steps of the sides that have any, a `Next` behind each.
    ops: Items<Op>,
    /// Whether one of these sides matches the empty text.
    empty: bool,
    /// Whether a side without steps is among them.
    blank: bool,
    /// Whether one side alone has steps.
    alone: bool,
}

/// The program of the pattern, and of which sets: `sets` is the number of those that stand before it,
/// and then of those up to its end. The recursion is as deep as the pattern. Steps are handed on: they are
/// moved only where a part stands behind or beside others, and where a repeat or a fork begins before it.
#[cycle(compile)]
pub(crate) fn compile(alloc: Global, tree: &Tree, sets: &mut usize) -> Result<Part, Memory>
    ensures { IfOk result (λ part. spec.program tree.now sets.old ≡ (part, sets.new)) }
{
    match tree {
        Tree::Set(_) => {
            let at = *sets;
            *sets = at.checked_add(1).ok_or(Memory)?;
            single(alloc, at)
        }
        Tree::Sequence(trees) => compile_sequence(alloc, trees.as_slice(), sets),
        Tree::Choice(trees) => compile_choice(alloc, trees.as_slice(), sets),
        Tree::Repeat(tree, times) => {
            let part = compile(alloc, tree.get(), sets)?;
            repeat(alloc, part, *times)
        }
    }
}

/// The program of the patterns one behind the other.
#[cycle(compile)]
fn compile_sequence(alloc: Global, trees: &[Tree], sets: &mut usize) -> Result<Part, Memory>
    ensures { IfOk result (λ part. spec.in_sequence (spec.programs trees.now sets.old) ≡ (part, sets.new)) }
{
    let mut whole = Part {
        ops: Items::new(alloc),
        empty: true,
    };
    for tree in trees {
        let part = compile(alloc, tree, sets)?;
        add(&mut whole, part)?;
    }
    Ok(whole)
}

/// The program of one of the patterns.
#[cycle(compile)]
fn compile_choice(alloc: Global, trees: &[Tree], sets: &mut usize) -> Result<Part, Memory>
    ensures { IfOk result (λ part. spec.in_choice (spec.programs trees.now sets.old) ≡ (part, sets.new)) }
{
    let mut sides = no_sides(alloc);
    for tree in trees {
        let side = compile(alloc, tree, sets)?;
        gather(&mut sides, side)?;
    }
    choose(alloc, sides)
}

/// One step.
fn single(alloc: Global, at: usize) -> Result<Part, Memory>
    ensures { IfOk result (λ part. part ≡ spec.single at) }
{
    let mut ops = Items::new(alloc);
    ops.push(Op::One(at))?;
    Ok(Part { ops, empty: false })
}

/// Appends a copy of these steps. After want of memory some of them may stand behind the old ones.
fn extend(alloc: Global, ops: &mut Items<Op>, more: &[Op]) -> Result<(), Memory>
    ensures { OnOk result (ops.new ≡ ops.old ++ more.now) }
{
    ops.append(Items::from_slice(alloc, more)?)?;
    Ok(())
}

/// Puts steps behind these; the first ones are handed on. After want of memory some of them may stand
/// there.
fn put(ops: &mut Items<Op>, more: Items<Op>) -> Result<(), Memory>
    ensures { OnOk result (ops.new ≡ ops.old ++ more) }
{
    if ops.is_empty() {
        *ops = more;
    } else {
        ops.append(more)?;
    }
    Ok(())
}

/// Puts a part behind the others.
fn add(whole: &mut Part, part: Part) -> Result<(), Memory>
    ensures { OnOk result (whole.new ≡ spec.beside whole.old part) }
{
    let Part { ops, empty } = part;
    put(&mut whole.ops, ops)?;
    whole.empty = whole.empty && empty;
    Ok(())
}

/// No side yet.
fn no_sides(alloc: Global) -> Sides
    ensures { result ≡ spec.no_sides }
{
    Sides {
        ops: Items::new(alloc),
        empty: false,
        blank: false,
        alone: false,
    }
}

/// Adds a side.
fn gather(sides: &mut Sides, side: Part) -> Result<(), Memory>
    ensures { OnOk result (sides.new ≡ spec.gathered sides.old side) }
{
    let Part { ops, empty } = side;
    if ops.is_empty() {
        sides.blank = true;
        return Ok(());
    }
    sides.alone = sides.ops.is_empty();
    put(&mut sides.ops, ops)?;
    sides.ops.push(Op::Next)?;
    sides.empty = sides.empty || empty;
    Ok(())
}

/// Takes the last step away.
#[tactic(auto, using(crate::proofs::Spelling::but_last_of))]
fn drop_last(ops: &mut Items<Op>)
    ensures { ops.new ≡ spec.but_last ops.old }
{
    let _ = ops.pop();
}

/// The side that has steps where one alone has some, and the empty text where one without steps stands
/// beside it.
fn only(alloc: Global, sides: Sides) -> Result<Part, Memory>
    ensures { IfOk result (λ part. part ≡ spec.only sides) }
{
    let Sides {
        mut ops,
        empty,
        blank,
        alone: _,
    } = sides;
    drop_last(&mut ops);
    let side = Part { ops, empty };
    if blank {
        optional(alloc, side)
    } else {
        Ok(side)
    }
}

/// One of the sides: no steps where no side has any, and no fork where one side alone has some.
fn choose(alloc: Global, sides: Sides) -> Result<Part, Memory>
    ensures { IfOk result (λ part. part ≡ spec.alternated sides) }
{
    if sides.alone {
        return only(alloc, sides);
    }
    if sides.blank && sides.ops.is_empty() {
        return Ok(Part {
            ops: Items::new(alloc),
            empty: true,
        });
    }
    forked(alloc, sides)
}

/// An alternation round the sides.
fn forked(alloc: Global, sides: Sides) -> Result<Part, Memory>
    ensures { IfOk result (λ part. part ≡ spec.forked sides) }
{
    let Sides {
        ops: steps,
        empty,
        blank,
        alone: _,
    } = sides;
    let mut ops = Items::new(alloc);
    ops.push(Op::Fork)?;
    ops.append(steps)?;
    if blank {
        ops.push(Op::Next)?;
    }
    ops.push(Op::Join)?;
    Ok(Part {
        ops,
        empty: empty || blank,
    })
}

/// So many copies of the steps, one behind the other.
fn push_copies(alloc: Global, ops: &mut Items<Op>, part: &[Op], number: u32) -> Result<(), Memory>
    ensures { OnOk result (ops.new ≡ ops.old ++ spec.power number part.now) }
{
    for _ in 0..number {
        extend(alloc, ops, part)?;
    }
    Ok(())
}

/// Ditto, of which the last is the steps themselves.
#[tactic(auto, using(crate::proofs::CodeLemmas::copies_last))]
fn put_copies(
    alloc: Global,
    ops: &mut Items<Op>,
    part: Items<Op>,
    number: u32,
) -> Result<(), Memory>
    ensures { OnOk result (ops.new ≡ ops.old ++ spec.power number part) }
{
    if number == 0 {
        return Ok(());
    }
    push_copies(alloc, ops, part.as_slice(), number - 1)?;
    put(ops, part)
}

/// What the part matches, and the empty text.
fn optional(alloc: Global, part: Part) -> Result<Part, Memory>
    ensures { IfOk result (λ whole. whole ≡ spec.optional part) }
{
    if part.empty {
        return Ok(part);
    }
    let Part {
        ops: steps,
        empty: _,
    } = part;
    let mut ops = Items::new(alloc);
    ops.push(Op::Fork)?;
    ops.append(steps)?;
    ops.push(Op::Next)?;
    ops.push(Op::Next)?;
    ops.push(Op::Join)?;
    Ok(Part { ops, empty: true })
}

/// Whether the steps are one repeat without end.
fn is_loop(steps: &[Op]) -> bool
    ensures { result ≡ spec.is_loop steps.now }
{
    match steps.split_first() {
        Some((Op::Enter(far), others)) => *far == others.len(),
        _ => false,
    }
}

/// The part again and again, once at least or, by the flag, not at all. A part that is such a repeat
/// itself only ends otherwise.
fn endless(alloc: Global, part: Part, empty: bool) -> Result<Part, Memory>
    ensures { IfOk result (λ whole. whole ≡ spec.endless part empty) }
{
    let Part {
        ops: mut steps,
        empty: _,
    } = part;
    if is_loop(steps.as_slice()) {
        drop_last(&mut steps);
        steps.push(Op::Leave(empty))?;
        return Ok(Part { ops: steps, empty });
    }
    let mut ops = Items::new(alloc);
    ops.push(Op::Enter(steps.as_slice().len() + 1))?;
    ops.append(steps)?;
    ops.push(Op::Leave(empty))?;
    Ok(Part { ops, empty })
}

/// The part in a number of times that is permitted. A part without steps stays without them.
fn repeat(alloc: Global, part: Part, times: Times) -> Result<Part, Memory>
    ensures { IfOk result (λ whole. whole ≡ spec.repeated part times) }
{
    match times.most {
        Some(most) if most < times.least => forked(alloc, no_sides(alloc)),
        _ if part.ops.is_empty() => Ok(part),
        Some(most) => repeat_up_to(alloc, part, times.least, most - times.least),
        None if times.least == 0 => endless(alloc, part, true),
        None => repeat_from(alloc, part, times.least - 1),
    }
}

/// So many copies of the part, and as many as `more` further ones.
fn repeat_up_to(alloc: Global, part: Part, least: u32, more: u32) -> Result<Part, Memory>
    ensures { IfOk result (λ whole. whole ≡ spec.up_to part least more) }
{
    let empty = part.empty || least == 0;
    let mut ops = Items::new(alloc);
    if more == 0 {
        let Part {
            ops: steps,
            empty: _,
        } = part;
        put_copies(alloc, &mut ops, steps, least)?;
        return Ok(Part { ops, empty });
    }
    push_copies(alloc, &mut ops, part.ops.as_slice(), least)?;
    let Part {
        ops: further,
        empty: _,
    } = optional(alloc, part)?;
    put_copies(alloc, &mut ops, further, more)?;
    Ok(Part { ops, empty })
}

/// So many copies of the part, and behind them the part once or more.
fn repeat_from(alloc: Global, part: Part, before: u32) -> Result<Part, Memory>
    ensures { IfOk result (λ whole. whole ≡ spec.from part before) }
{
    let empty = part.empty;
    let mut ops = Items::new(alloc);
    push_copies(alloc, &mut ops, part.ops.as_slice(), before)?;
    let Part {
        ops: last,
        empty: _,
    } = endless(alloc, part, empty)?;
    put(&mut ops, last)?;
    Ok(Part { ops, empty })
}
