ghost use Rattle.std.specs.Prelude.{◌≡◌, ◌↔◌, IfOk, OnOk, IsTrue, chars, length, vec_len};
ghost use Rattle.pattern_tree.specs.Matching.{Matches};
ghost use Rattle.pattern_tree.specs.Trees.{values};
ghost use Rattle.pattern_tree.specs.Searching.{found_in, AreInOrder};
ghost use Rattle.pattern_tree.specs.Machine.{reached_of, taken, begun, is_matched};

use crate::machine::{Kept, pass};
use crate::program::{Op, Part, compile};
use crate::search::{SearchSet, push_hits, search_sets};
use crate::set::push_sets;
use crate::tree::{Set, Tree};
use ifc_base::Memory;
use std::alloc::Global;

/// What is known behind some of the text's characters.
#[derive(Drop)]
pub(crate) struct Progress {
    /// The marks of the steps.
    pub(crate) marks: Vec<bool>,
    /// Whether a text may begin here.
    pub(crate) begins: bool,
    /// Whether the text so far is matched.
    pub(crate) ends: bool,
}

/// Room for one character's work, used again for the next.
#[derive(Drop)]
struct Room {
    /// What each set says of the character.
    hits: Vec<bool>,
    /// What is kept while alternations and repeats are gone through.
    kept: Vec<Kept>,
}

/// Whether the pattern matches the text, as a whole; the only refusal is want of memory.
///
/// The method is that of marked regular expressions (S. Fischer, F. Huch, T. Wilke, A Play on Regular
/// Expressions, 2010): each single-character part of the pattern, as often as the repeats around it
/// say, has a mark that tells whether the text so far can end with it, and a character makes all new
/// marks of the old ones in one pass. All ways are followed at once and none is gone back, counted
/// repeats are plain copies, and no automaton is built, so neither the text nor the form of the
/// pattern decides about the time.
///
/// For a tree of weight `w` a pass makes at most `17 w - 8` steps, none where `w` is 0, however deep the
/// tree is; each step's work is constant. Node by node:
///
/// - a single-character part is one step; a sequence adds none to those of its parts;
/// - an alternation of `k` sides that have steps adds `k + 2`, for `k` of at least 2, and one more where
///   other sides have none. For `k = 1` it adds none where that side stands alone or matches the empty
///   text, else 4; for `k = 0` it has none;
/// - a repeat up to `m` is `m` copies of its part, with 4 further steps for each copy beyond the least
///   number, none where the part matches the empty text;
/// - a repeat without end is one copy of its part for each of the least number, at least one, and 2
///   steps, none where the part is such a repeat itself.
///
/// So of the nodes that add steps and no weight at most three add any between two nodes that add weight,
/// 8 steps in all, as in `((a+)?)*`: then the part matches the empty text and is a repeat without end.
/// Count for a part the steps that such nodes can still add: 8, 6 where it is a repeat without end, 2
/// where it matches the empty text, 0 where both; its steps and these are at most `17 w - 8`, by
/// induction. A tree in which an alternation has no sides, or a repeat permits no number, is apart: such a
/// node is 2 steps and may weigh nothing.
///
/// Each set is asked once for each character, whatever the number of its copies, by a binary search in its
/// ranges, which are put in order before the first character, and by at most six named classes: `O(s log q)`
/// for `s` sets, of which there are at most `w`, and `q` parts of the largest. So a character takes
/// `O(w + s log q)` time, with no recursion. Before the first one the program is made, in `O(d w + p)` for a
/// tree of depth `d` with `p` nodes, by a recursion as deep as the tree: steps are moved once where a part
/// stands behind or beside others and where a fork or a repeat begins, and are handed on where a part stands
/// alone. The sets are made ready in `O(r log q)` for the `r` parts of all. Memory is `O(w + r)`, whatever the
/// text.
pub fn matches(alloc: Global, tree: &Tree, text: &str) -> Result<bool, Memory>
    ensures { IfOk result (λ answer. IsTrue answer ↔ Matches tree.now (chars text.now)) }
{
    let mut number = 0;
    let part = compile(alloc, tree, &mut number)?;
    let mut sets = Vec::new(alloc);
    push_sets(tree, &mut sets)?;
    runs_to_end(alloc, sets.as_slice(), &part, text)
}

/// Whether the program of a pattern with these sets matches the text.
fn runs_to_end(alloc: Global, sets: &[&Set], part: &Part, text: &str) -> Result<bool, Memory>
    ensures { IfOk result (λ answer. answer ≡ is_matched (values sets.now) part.now (chars text.now)) }
{
    let searches = search_sets(alloc, sets)?;
    let ops = part.ops.as_slice();
    let mut progress = Progress {
        marks: vec![in alloc; false; ops.len()]?,
        begins: true,
        ends: part.empty,
    };
    let mut room = Room {
        hits: Vec::new(alloc),
        kept: Vec::new(alloc),
    };
    for c in text.chars() {
        take(searches.as_slice(), ops, &mut progress, &mut room, c)?;
    }
    Ok(progress.ends)
}

/// Takes one character.
fn take(
    sets: &[SearchSet],
    ops: &[Op],
    progress: &mut Progress,
    room: &mut Room,
    c: char,
) -> Result<(), Memory>
    requires ordered { AreInOrder sets.now }
    requires marked { vec_len progress.old.marks ≡ length ops.now }
    ensures size { vec_len progress.new.marks ≡ length ops.now }
    ensures reached { OnOk result
        (reached_of progress.new ≡ taken (found_in sets.now) ops.now (reached_of progress.old) c) }
{
    room.hits.clear();
    push_hits(sets, c, &mut room.hits)?;
    let wire = pass(
        ops,
        room.hits.as_slice(),
        progress.marks.as_mut_slice(),
        progress.begins,
        &mut room.kept,
    )?;
    progress.begins = false;
    progress.ends = wire.next;
    Ok(())
}
