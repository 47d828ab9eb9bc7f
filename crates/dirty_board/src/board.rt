ghost use Rattle.std.specs.Prelude.{◌≡◌, ◌≤◌, map, length, true, false, [], Some, None, IfOk, IfErr, OnOk, OnErr};
ghost use Rattle.std.specs.Option.{option_map, option_copied};
ghost use Rattle.dirty_board.specs.Rows.{dropped_among, keeping, least_claimable, least_unsettled, marked, marking, new_row, row_at, verdict_kept, with_row, without_key};
ghost use Rattle.audit_model.specs.Laws.{ArePairsAscending};
ghost use Rattle.dirty_board.specs.Needing.{is_among};
ghost use Rattle.dirty_board.specs.Rooms.{pairs_of, replaced, without_pairs, AreNew};
ghost use Rattle.dirty_board.specs.Tallying.{having, heading_of, tallies_from};

use crate::index::{Index, add_needs};
use crate::ledger::Ledger;
use crate::room::Room;
use crate::rows::{BoxedKept, Kept, Row};
use crate::table::place_of;
use audit_model::{Pair, Specification, Tally, Verdict};
use ifc_base::{Key, Keys, Memory};
use std::alloc::Global;
use std::collections::BTreeMap;
use std::marker::Model;

/// The board. Contracts see its rows, one for each pair, in order, and what its tallies say of each
/// specification whatever is found.
#[derive(Drop)]
pub struct Board {
    ledger: Ledger,
    index: Index,
}

impl Model for Board {
    ghost use Rattle.dirty_board.specs.Needing.{AreUnder};
    ghost use Rattle.dirty_board.specs.Tallying.{BoardView};

    ghost Value = { BoardView };

    ghost view = { λ board. board.ledger };

    ghost invariant = { λ board. AreUnder board.index.entries board.ledger.rows };
}

/// Drops what is kept of these pairs, if it needs the key.
fn unsettle_all(ledger: &mut Ledger, pairs: &[Pair], key: &Key)
    ensures { ledger.new ≡ having (map (dropped_among pairs.now key.now) ledger.old.rows) ledger.old }
{
    for pair in pairs {
        ledger.unsettle(*pair, *key);
    }
}

/// Takes out the rows of these pairs.
fn remove_all(ledger: &mut Ledger, gone: &[Pair])
    ensures rows { ledger.new ≡ having (without_pairs gone.now ledger.old.rows) ledger.old }
{
    for pair in gone {
        ledger.remove(*pair);
    }
}

impl Board {
    /// The board of these pairs of these specifications; the pairs ascend. All are unsettled, none is out.
    /// `O(n)` in the number of both.
    pub fn new(alloc: Global, specs: &[Specification], pairs: &[Pair]) -> Result<Board, Memory>
        requires { ArePairsAscending pairs.now }
        ensures { IfOk result (λ board. board ≡ record { headings = map heading_of specs.now; rows = map new_row pairs.now }) }
    {
        let ledger = Ledger::new(alloc, specs, pairs)?;
        Ok(Board {
            ledger,
            index: BTreeMap::new(alloc),
        })
    }

    /// The rows, in order. `O(1)`.
    pub fn rows(&self) -> &[Row]
        ensures { result.now ≡ self.now.rows }
    {
        self.ledger.table().rows()
    }

    /// The tallies of the verdicts that are kept, one for each specification, in order. `O(1)`.
    pub fn tallies(&self) -> &[Tally]
        ensures { result.now ≡ tallies_from 1 self.now.headings self.now.rows }
    {
        self.ledger.tallies()
    }

    /// The verdict that is kept of the pair, if it is listed and settled. `O(log n)`.
    pub fn verdict(&self, pair: Pair) -> Option<&Verdict>
        ensures { option_copied result ≡ verdict_kept (row_at pair self.now.rows) }
    {
        let rows = self.ledger.table().rows();
        let place = place_of(rows, pair)?;
        let row = rows.get(place)?;
        match &row.kept {
            None => None,
            Some(kept) => Some(&kept.get().verdict),
        }
    }

    /// Keeps what was found of the pair, which is then settled. All memory is taken first: for want of it
    /// the board stays and what was found comes back. Of a pair that isn't listed nothing is kept.
    /// `O(k log n)` for `k` needed keys, and a move of failing elements of the specification.
    pub fn settle(
        &mut self,
        alloc: Global,
        pair: Pair,
        verdict: Verdict,
        needs: Keys,
    ) -> Result<(), (Memory, Verdict, Keys)>
        ensures rows { OnOk result (self.new ≡
            having (with_row pair (keeping (record { verdict = verdict; needs = needs })) self.old.rows) self.old) }
        ensures stays { OnErr result (self.new ≡ self.old) }
        ensures back { IfErr result (λ back. (back.1 ≡ verdict) × (back.2 ≡ needs)) }
    {
        let kept = match BoxedKept::new(alloc, Kept { verdict, needs }) {
            Ok(kept) => kept,
            Err(back) => return Err((Memory, back.verdict, back.needs)),
        };
        match add_needs(alloc, &mut self.index, kept.get().needs.as_slice(), &pair) {
            Err(_) => {
                let back = kept.into_inner();
                Err((Memory, back.verdict, back.needs))
            }
            Ok(()) => match self.ledger.keep(pair, kept) {
                Ok(()) => Ok(()),
                Err(kept) => {
                    let back = kept.into_inner();
                    Err((Memory, back.verdict, back.needs))
                }
            },
        }
    }

    /// Unsettles the pairs that need the key. `O(p * (log n + k))` for the `p` pairs under it, of `k` keys
    /// each, and for each that is dropped a move of failing elements of its specification.
    fn mark_one(&mut self, key: Key)
        ensures { self.new ≡ having (map (without_key key) self.old.rows) self.old }
    {
        if let Some(pairs) = self.index.remove(&key) {
            unsettle_all(&mut self.ledger, &pairs, &key);
        }
    }

    /// Unsettles the pairs that need one of the keys. It takes no memory. For each key `O(p * (log n + k))`
    /// for the `p` pairs under it, of `k` keys each, and for each pair that is dropped a move of failing
    /// elements of its specification.
    pub fn mark(&mut self, keys: &Keys)
        ensures { self.new ≡ having (marked keys.now self.old.rows) self.old }
    {
        for key in keys.as_slice() {
            self.mark_one(*key);
        }
    }

    /// The least unsettled pair. `O(n / 256)` in the number of pairs.
    pub fn least_unsettled(&self) -> Option<Pair>
        ensures { result ≡ least_unsettled self.now.rows }
    {
        self.ledger.table().least_unsettled()
    }

    /// The least unsettled pair that isn't out. `O(n / 256)` in the number of pairs.
    pub fn least_claimable(&self) -> Option<Pair>
        ensures { result ≡ least_claimable self.now.rows }
    {
        self.ledger.table().least_claimable()
    }

    /// Marks that a claim of the pair is out. A pair that isn't listed has no mark.
    pub fn take_out(&mut self, pair: Pair)
        ensures { self.new ≡ having (with_row pair (marking true) self.old.rows) self.old }
    {
        self.ledger.mark_out(pair, true);
    }

    /// Marks that no claim of the pair is out.
    pub fn put_back(&mut self, pair: Pair)
        ensures { self.new ≡ having (with_row pair (marking false) self.old.rows) self.old }
    {
        self.ledger.mark_out(pair, false);
    }

    /// The room for these pairs to go and those to come. The board stays. Where no pair comes it takes
    /// the memory of the pairs that go alone, and else that of a row for each pair.
    pub fn make_room(&self, alloc: Global, gone: &[Pair], come: &[Pair]) -> Result<Room, Memory>
        ensures { IfOk result (λ room. room ≡ record { gone = gone.now; come = come.now; size = length self.now.rows }) }
    {
        Room::new(alloc, self.ledger.table().len(), gone, come)
    }

    /// Takes out the pairs that go and adds those that come, unsettled and not out, each in its place;
    /// the others keep what is kept of them and their marks. It takes no memory. It asks that there are
    /// no more rows than the room was made for, and that the pairs that come are distinct and not
    /// listed. Where none goes or comes it costs nothing; else for each pair `O(log n)`, a move of the
    /// rows behind it and, where a verdict goes with it, of failing elements of its specification.
    pub fn replace_pairs(&mut self, room: Room)
        requires size { length self.old.rows ≤ room.size }
        requires fresh { AreNew (pairs_of self.old.rows) room.come }
        ensures { self.new ≡ having (replaced room.gone room.come self.old.rows) self.old }
    {
        let Room {
            gone,
            come,
            size: _,
            space,
        } = room;
        remove_all(&mut self.ledger, &gone);
        if !come.is_empty() {
            self.ledger.add_all(&come, space);
        }
    }
}
