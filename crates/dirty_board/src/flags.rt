ghost use Rattle.std.specs.Prelude.{◌≡◌, ◌≤◌, ◌<◌, ◌+◌, ◌*◌, ◌/◌, ◌^◌, ℕ, IsTrue, length, true, false, [], insert, IfOk, vec_capacity};
ghost use Rattle.std.specs.List.{remove, slice_index_or};
ghost use Rattle.std.proofs.Common.{set, replicate};
ghost use Rattle.dirty_board.specs.Rows.{first_set};
ghost use Rattle.dirty_board.specs.Blocks.{is_near, AreBlocks, AreMoved};

use crate::moves::{insert_within, move_within};
use ifc_base::Memory;
use std::alloc::Global;
use std::marker::Model;

/// A row of flags, of which the first that is set is found quickly. Contracts see the flags, and for how
/// many there is memory.
#[derive(Drop)]
pub struct Flags {
    flags: Vec<bool>,
    blocks: Vec<bool>,
}

impl Model for Flags {
    ghost use Rattle.std.specs.Prelude.{◌*◌, min, vec_capacity};
    ghost use Rattle.dirty_board.specs.Blocks.{AreBlocks, FlagsView};

    ghost Value = { FlagsView };

    ghost view = { λ row. record {
      flags = row.flags.items;
      places = min (vec_capacity row.flags) (256 * vec_capacity row.blocks);
    } };

    ghost invariant = { λ row. AreBlocks row.flags.items row.blocks.items };
}

/// Memory for a row of flags. Contracts see for how many.
#[derive(Drop)]
pub struct Space {
    flags: Vec<bool>,
    blocks: Vec<bool>,
}

impl Model for Space {
    ghost use Rattle.std.specs.Prelude.{◌≡◌, ◌*◌, ℕ, [], min, vec_capacity};

    ghost Value = { ℕ };

    ghost view = { λ space. min (vec_capacity space.flags) (256 * vec_capacity space.blocks) };

    ghost invariant = { λ space. (space.flags.items ≡ []) × (space.blocks.items ≡ []) };
}

impl Space {
    /// Memory for so many flags. `O(1)`.
    pub fn new(alloc: Global, count: usize) -> Result<Space, Memory>
        ensures { IfOk result (λ space. count ≤ space) }
    {
        let flags = Vec::with_capacity(alloc, count)?;
        let blocks = Vec::with_capacity(alloc, count / 256 + 1)?;
        Ok(Space { flags, blocks })
    }
}

/// How many blocks there are of so many flags.
fn blocks_of(count: usize) -> usize
    ensures enough { count ≤ 256 * result }
    ensures least { 256 * result < count + 256 }
{
    let whole = count / 256;
    if whole * 256 == count {
        whole
    } else {
        whole + 1
    }
}

/// So many flags, all set.
fn all_set(alloc: Global, count: usize) -> Result<Vec<bool>, Memory>
    ensures { IfOk result (λ flags. flags.items ≡ replicate count true) }
{
    let mut flags = Vec::new(alloc);
    let mut done = 0;
    while done < count {
        flags.push(true)?;
        done += 1;
    }
    Ok(flags)
}

/// Whether the flag at this place is set; past the end none is.
fn is_set(flags: &[bool], place: usize) -> bool
    ensures { result ≡ slice_index_or flags.now place false }
{
    place < flags.len() && flags[place]
}

/// Whether none of the flags from this place on, before the other, is set.
fn is_clear(flags: &[bool], from: usize, to: usize) -> bool
    ensures { IsTrue result → (i : ℕ) → from ≤ i → i < to → slice_index_or flags.now i false ≡ false }
{
    let mut at = from;
    while at < to {
        if at >= flags.len() {
            return true;
        }
        if flags[at] {
            return false;
        }
        at += 1;
    }
    true
}

/// The place of the first flag that is set.
fn first_of(flags: &[bool], blocks: &[bool]) -> Option<usize>
    requires fits { length flags.now < 9223372036854775808 }
    requires blocks { AreBlocks flags.now blocks.now }
    ensures { result ≡ first_set flags.now }
{
    let mut at = 0;
    while at < flags.len() {
        let block = at / 256;
        if !blocks[block] {
            at = block * 256 + 256;
        } else if flags[at] {
            return Some(at);
        } else {
            at += 1;
        }
    }
    None
}

/// Adds a block where these are one too few for so many flags.
fn cover(blocks: &mut Vec<bool>, count: usize)
    requires memory { count ≤ 256 * vec_capacity blocks.old }
    requires nearly { count ≤ 256 * length blocks.old.items + 1 }
    ensures long { count ≤ 256 * length blocks.new.items }
    ensures kept { (b : ℕ) → slice_index_or blocks.old.items b false ≡ true → slice_index_or blocks.new.items b false ≡ true }
    ensures capacity { vec_capacity blocks.new ≡ vec_capacity blocks.old }
{
    if blocks.len() < blocks_of(count) {
        blocks.push_reserved(true);
    }
}

/// Says of the block anew whether one of its flags is set, if that may be. `O(256)`.
fn renew_block(flags: &[bool], blocks: &mut Vec<bool>, block: usize)
    requires fits { block < 2 ^ 55 }
    requires within { block < length blocks.old.items }
    ensures others { (b : ℕ) → b < block → slice_index_or blocks.new.items b false ≡ slice_index_or blocks.old.items b false }
    ensures later { (b : ℕ) → block < b → slice_index_or blocks.new.items b false ≡ slice_index_or blocks.old.items b false }
    ensures shown { is_near flags.now blocks.old.items block ≡ true → (i : ℕ) → i / 256 ≡ block → slice_index_or flags.now i false ≡ true →
        slice_index_or blocks.new.items block false ≡ true }
    ensures length { length blocks.new.items ≡ length blocks.old.items }
    ensures capacity { vec_capacity blocks.new ≡ vec_capacity blocks.old }
{
    let start = block * 256;
    if blocks[block] || is_set(flags, start) || is_set(flags, start + 255) {
        blocks[block] = !is_clear(flags, start, start + 256);
    }
}

/// Says of the blocks from this one on anew whether one of their flags is set, after these moved by one
/// place. It looks at one or two flags of a block, and at 256 at most of one that has flags.
fn renew(flags: &[bool], blocks: &mut Vec<bool>, from: usize)
    requires fits { length flags.now < 2 ^ 63 }
    requires long { length flags.now ≤ 256 * length blocks.old.items }
    requires moved { AreMoved flags.now blocks.old.items from }
    ensures blocks { AreBlocks flags.now blocks.new.items }
    ensures capacity { vec_capacity blocks.new ≡ vec_capacity blocks.old }
{
    let mut block = from;
    while block < blocks.len() && block <= flags.len() / 256 {
        renew_block(flags, blocks, block);
        block += 1;
    }
}

impl Flags {
    /// The row of these flags. `O(n)` in their number.
    pub fn of(alloc: Global, flags: Vec<bool>) -> Result<Flags, Memory>
        ensures { IfOk result (λ row. row.flags ≡ flags.items) }
    {
        let blocks = all_set(alloc, flags.len() / 256 + 1)?;
        Ok(Flags { flags, blocks })
    }

    /// Sets the flag at this place to this value. It takes no memory. `O(1)`.
    pub fn put(&mut self, place: usize, flag: bool)
        requires { place < length self.old.flags }
        ensures { self.new.flags ≡ set self.old.flags place flag }
    {
        let block = place / 256;
        self.flags[place] = flag;
        if flag {
            self.blocks[block] = true;
        } else if is_clear(&self.flags, block * 256, block * 256 + 256) {
            self.blocks[block] = false;
        }
    }

    /// The place of the first flag that is set. `O(n / 256)`, with at most 256 flags looked at.
    pub fn first(&self) -> Option<usize>
        ensures { result ≡ first_set self.now.flags }
    {
        first_of(&self.flags, &self.blocks)
    }

    /// Takes the flag at this place out. It takes no memory. A move of the flags behind it, and
    /// `O(n / 256)`.
    pub fn remove(&mut self, place: usize)
        requires { place < length self.old.flags }
        ensures { self.new.flags ≡ remove self.old.flags place }
    {
        self.flags.remove(place);
        renew(&self.flags, &mut self.blocks, place / 256);
    }

    /// Moves into this memory, which is enough for the flags. It takes none. A move of the flags.
    pub fn move_into(&mut self, space: Space)
        requires { length self.old.flags ≤ space }
        ensures flags { self.new.flags ≡ self.old.flags }
        ensures places { space ≤ self.new.places }
    {
        let Space { flags, blocks } = space;
        self.blocks.truncate(blocks_of(self.flags.len()));
        move_within(&mut self.flags, flags);
        move_within(&mut self.blocks, blocks);
    }

    /// Puts a flag that is set in before this place, where there is memory for it. A move of the flags
    /// behind it, and `O(n / 256)`.
    pub fn insert(&mut self, place: usize)
        requires within { place ≤ length self.old.flags }
        requires memory { length self.old.flags < self.old.places }
        ensures flags { self.new.flags ≡ insert self.old.flags place true }
        ensures places { self.old.places ≤ self.new.places }
    {
        insert_within(&mut self.flags, place, true);
        cover(&mut self.blocks, self.flags.len());
        self.blocks[place / 256] = true;
        renew(&self.flags, &mut self.blocks, place / 256);
    }
}
