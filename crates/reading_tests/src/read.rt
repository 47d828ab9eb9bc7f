//! Trees, over tokens, and from bytes to a tree.

ghost use Rattle.std.specs.Prelude.{◌≡◌, Ok, IfOk, ℕ, List};
ghost use Rattle.reading.specs.Codes.{codes_of};
ghost use Rattle.reading.specs.Lines.{Answers};
ghost use Rattle.reading.specs.Reading.{Gives, Yields, Fails};
ghost use Rattle.reading_tests.specs.declared.tree.Tree.{Tree};
ghost use Rattle.reading_tests.specs.declared.tree.Tree.TheVariants.{Number};
ghost use Rattle.reading_tests.specs.Nest as spec;
ghost use Rattle.reading_tests.specs.Grammar.{Reads};

use crate::token::{Lexed, Token, next_token};
use crate::tree::{Cause, Tree};
use ifc_base::Refusal;
use reading::{Cursor, Fault, Stop, answer};
use sqlite_items::Items;
use std::alloc::Global;

const MAX_DEPTH: usize = 32;

/// Why the token doesn't belong where it stands. `outer` is the innermost parenthesis that is open.
#[inline(always)]
fn misplaced<'a>(outer: Option<&'a [u8]>, token: Token, at: &'a [u8]) -> Stop<'a, Cause>
    ensures { Fails result (spec.failing (spec.misplaced (spec.place outer.entry) token (codes_of at.now))) }
{
    match token {
        Token::End => match outer {
            None => Stop::Refused(Cause::NoEnd, at),
            Some(open) => Stop::Refused(Cause::Unclosed, open),
        },
        _ => Stop::Refused(Cause::BadToken, at),
    }
}

/// The tree that is this number. A value of its own, so that a list gets it without what a variable held before.
#[inline(always)]
fn leaf(n: u32) -> Tree
    ensures { result ≡ Number n }
{
    Tree::Number(n)
}

/// The tree that begins with the token, in which parentheses nest no deeper than `depth`.
#[tactic(auto, using(crate::proofs::Trees::tree_laws), unfolding(crate::specs::Nest::list, crate::specs::Nest::list_turn))]
#[cycle(read)]
#[inline(always)]
fn tree<'a>(
    alloc: Global,
    depth: usize,
    outer: Option<&'a [u8]>,
    first: Lexed<'a>,
    cursor: &mut Cursor<'a>,
) -> Result<Tree, Stop<'a, Cause>>
    ensures { Gives (λ x. x) result cursor.new (spec.tree depth (spec.place outer.entry)
        (spec.lexed_view first.entry) cursor.old) }
{
    match first.token {
        Token::Number(n) => Ok(Tree::Number(n)),
        Token::Open => {
            if depth == 0 {
                return Err(Stop::Refused(Cause::TooDeep, first.at));
            }
            let mut here = Cursor::new(cursor.rest());
            let found = list(alloc, depth - 1, first.at, &mut here)?;
            *cursor = here;
            Ok(found)
        }
        other => Err(misplaced(outer, other, first.at)),
    }
}

/// The list behind the parenthesis at `at`.
#[tactic(auto, using(crate::proofs::Lists::list_laws), unfolding(crate::specs::Nest::list, crate::specs::Nest::list_turn))]
#[cycle(read)]
fn list<'a>(
    alloc: Global,
    depth: usize,
    at: &'a [u8],
    cursor: &mut Cursor<'a>,
) -> Result<Tree, Stop<'a, Cause>>
    ensures { Gives (λ x. x) result cursor.new (spec.list (spec.tree depth) (codes_of at.now) cursor.old) }
{
    let mut here = Cursor::new(cursor.rest());
    let first = next_token(&mut here)?;
    let mut items = Items::new(alloc);
    if let Token::Close = first.token {
        *cursor = here;
        return Ok(Tree::List(items));
    }
    items.push(tree(alloc, depth, Some(at), first, &mut here)?)?;
    loop {
        let next = next_token(&mut here)?;
        match next.token {
            Token::Close => {
                *cursor = here;
                return Ok(Tree::List(items));
            }
            Token::Comma => {}
            other => return Err(misplaced(Some(at), other, next.at)),
        }
        let first = next_token(&mut here)?;
        match first.token {
            Token::Number(n) => items.push(leaf(n))?,
            _ => items.push(tree(alloc, depth, Some(at), first, &mut here)?)?,
        }
    }
}

#[tactic(auto, unfolding(crate::specs::Nest::whole))]
fn whole(alloc: Global, bytes: &[u8]) -> Result<Tree, Stop<'_, Cause>>
    ensures { Yields (λ x. x) result (spec.whole (codes_of bytes.now)) }
{
    let mut cursor = Cursor::new(bytes);
    let first = next_token(&mut cursor)?;
    let found = tree(alloc, MAX_DEPTH, None, first, &mut cursor)?;
    let end = next_token(&mut cursor)?;
    match end.token {
        Token::End => Ok(found),
        other => Err(misplaced(None, other, end.at)),
    }
}

/// Reads one tree, with nothing around it but blanks and comments. `O(n)`.
pub fn read_tree(alloc: Global, bytes: &[u8]) -> Result<Tree, Refusal<Fault<Cause>>>
    // What is read is spelled so.
    ensures found { IfOk result (λ x. Reads bytes.now x) }
    // What is spelled so is read, unless memory runs out.
    ensures only { (x : Tree) → Reads bytes.now x → Answers (λ x. x) result (Ok x) }
    // Which fault it is, and in which line.
    ensures exact { Answers (λ x. x) result (spec.reading bytes.now) }
{
    answer(bytes, whole(alloc, bytes))
}

/// At most one tree is spelled so.
pub fn one_tree()
    ensures { (bytes : List ℕ) (x y : Tree) → Reads bytes x → Reads bytes y → x ≡ y }
{}
