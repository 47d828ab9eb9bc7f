ghost use Rattle.std.specs.Prelude.{◌≡◌, ◌&&◌, ◌∷◌, length, reverse, IfOk, OnOk};
ghost use Rattle.pattern_tree.specs.Machine as spec;

use crate::program::Op;
use ifc_base::Memory;

/// Whether the text so far can end at a place of the pattern: before the next character, and behind it.
#[derive(Clone, Copy, Debug)]
pub(crate) struct Wire {
    pub(crate) now: bool,
    pub(crate) next: bool,
}

/// What is kept while an alternation or an endless repeat is gone through.
#[derive(Clone, Copy, Debug)]
pub(crate) struct Kept {
    /// The wire that came to it.
    pub(crate) came: Wire,
    /// What its sides gave so far.
    pub(crate) gathered: Wire,
}

/// What a step gives: the wire behind it, and its mark.
#[derive(Clone, Copy, Debug)]
pub(crate) struct Turn {
    pub(crate) wire: Wire,
    pub(crate) mark: bool,
}

/// The wire of no way.
const NO_WAY: Wire = Wire {
    now: false,
    next: false,
};

/// One wire or the other.
fn or(one: Wire, other: Wire) -> Wire
    ensures { result ≡ spec.or one other }
{
    Wire {
        now: one.now || other.now,
        next: one.next || other.next,
    }
}

/// What is kept last, taken away; of nothing, no way.
#[tactic(auto, using(crate::proofs::CodeLemmas::reverse_push))]
fn popped(kept: &mut Vec<Kept>) -> Kept
    ensures { spec.popped (reverse kept.old.items) ≡ (result, reverse kept.new.items) }
{
    match kept.pop() {
        Some(last) => last,
        None => Kept {
            came: NO_WAY,
            gathered: NO_WAY,
        },
    }
}

/// The mark so many places further on; past the end none.
fn mark_at(marks: &[bool], far: usize) -> bool
    ensures { result ≡ spec.mark_at marks.now far }
{
    if far < marks.len() { marks[far] } else { false }
}

/// What the set of the step says of the character.
fn hit_of(op: Op, hits: &[bool]) -> bool
    ensures { result ≡ spec.hit_of hits.now op }
{
    match op {
        Op::One(at) => mark_at(hits, at),
        _ => false,
    }
}

/// Keeps the wire that came, and what was gathered.
#[tactic(auto, using(crate::proofs::CodeLemmas::reverse_push))]
fn keep(kept: &mut Vec<Kept>, came: Wire, gathered: Wire) -> Result<(), Memory>
    ensures { OnOk result (reverse kept.new.items ≡ spec.kept_of came gathered ∷ reverse kept.old.items) }
{
    kept.push(Kept { came, gathered })?;
    Ok(())
}

/// One step: from what its set says of the character, and from the marks from its own on.
fn step(op: Op, hit: bool, marks: &[bool], wire: Wire, kept: &mut Vec<Kept>) -> Result<Turn, Memory>
    ensures { IfOk result (λ turn. spec.step op hit marks.now wire (reverse kept.old.items) ≡ (turn, reverse kept.new.items)) }
{
    match op {
        Op::One(_) => Ok(one(hit, mark_at(marks, 0), wire)),
        Op::Fork => {
            keep(kept, wire, NO_WAY)?;
            Ok(Turn { wire, mark: false })
        }
        Op::Next => {
            let last = popped(kept);
            keep(kept, last.came, or(last.gathered, wire))?;
            Ok(Turn {
                wire: last.came,
                mark: false,
            })
        }
        Op::Join => Ok(Turn {
            wire: popped(kept).gathered,
            mark: false,
        }),
        Op::Enter(far) => {
            keep(kept, wire, NO_WAY)?;
            Ok(Turn {
                wire: Wire {
                    now: wire.now || mark_at(marks, far),
                    next: false,
                },
                mark: false,
            })
        }
        Op::Leave(empty) => {
            let last = popped(kept);
            Ok(Turn {
                wire: if empty { or(wire, last.came) } else { wire },
                mark: wire.next,
            })
        }
    }
}

/// A single-character part.
fn one(hit: bool, mark: bool, wire: Wire) -> Turn
    ensures { result ≡ spec.turned (spec.wire mark (wire.now && hit)) (wire.now && hit) }
{
    let met = wire.now && hit;
    Turn {
        wire: Wire {
            now: mark,
            next: met,
        },
        mark: met,
    }
}

/// Takes one character: makes the new marks of the old ones, from what each set says of the character,
/// and tells the wire at the end of the program. The flag says whether a text may begin here. `O(n)` in
/// the number of steps.
pub(crate) fn pass(
    ops: &[Op],
    hits: &[bool],
    marks: &mut [bool],
    begins: bool,
    kept: &mut Vec<Kept>,
) -> Result<Wire, Memory>
    requires { length ops.now ≡ length marks.old }
    ensures { IfOk result (λ wire. spec.passed hits.now ops.now marks.old begins ≡ (marks.new, wire)) }
{
    kept.clear();
    let mut wire = Wire {
        now: begins,
        next: false,
    };
    for at in 0..marks.len() {
        let op = ops[at];
        let done = step(op, hit_of(op, hits), &marks[at..], wire, kept)?;
        marks[at] = done.mark;
        wire = done.wire;
    }
    Ok(wire)
}
