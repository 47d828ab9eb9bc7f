ghost use Rattle.std.specs.Prelude.{◌≡◌, ◌≤◌, ◌+◌, length, map, fold, IfOk, IfErr, OnOk, OnErr};
ghost use Rattle.audit_model.specs.Laws.{ArePairsAscending};
ghost use Rattle.dirty_board.specs.Rows.{keeping, marking, new_row, with_row, without_key, without_row, AreAscending};
ghost use Rattle.dirty_board.specs.Rooms.{pairs_of, with_pair, AreNew};
ghost use Rattle.dirty_board.specs.Tallying.{having, heading_of, tallies_from};

use crate::adding::TableSpace;
use crate::rows::BoxedKept;
use crate::table::Table;
use crate::tallies::{Tallies, applies};
use audit_model::{Pair, Specification, Tally};
use ifc_base::{Key, Memory};
use std::alloc::Global;
use std::marker::Model;

/// The rows with the tallies of what is kept in them.
#[derive(Drop)]
pub struct Ledger {
    table: Table,
    tallies: Tallies,
}

impl Model for Ledger {
    ghost use Rattle.std.specs.Prelude.{map};
    ghost use Rattle.dirty_board.specs.Tallying.{heading_in, AreTold, BoardView};

    ghost Value = { BoardView };

    ghost view = { λ ledger. record { headings = map heading_in ledger.tallies; rows = ledger.table } };

    ghost invariant = { λ ledger. AreTold ledger.tallies ledger.table };
}

impl Ledger {
    /// A row for each of these pairs, which ascend, and a tally for each of these specifications, in which
    /// nothing is found. `O(n)` in the number of both.
    pub fn new(alloc: Global, specs: &[Specification], pairs: &[Pair]) -> Result<Ledger, Memory>
        requires { ArePairsAscending pairs.now }
        ensures { IfOk result (λ ledger. ledger ≡ record { headings = map heading_of specs.now; rows = map new_row pairs.now }) }
    {
        let table = Table::new(alloc, pairs)?;
        let tallies = Tallies::new(alloc, specs)?;
        Ok(Ledger { table, tallies })
    }

    /// The rows. `O(1)`.
    pub fn table(&self) -> &Table
        ensures { result.now ≡ self.now.rows }
    {
        &self.table
    }

    /// The tallies. `O(1)`.
    pub fn tallies(&self) -> &[Tally]
        ensures { result.now ≡ tallies_from 1 self.now.headings self.now.rows }
    {
        self.tallies.as_slice()
    }

    /// Keeps this in the pair's row, if it has one, in the place of what was. All memory is taken first:
    /// for want of it all stays and this comes back. `O(log n)` in the number of rows, and a move of
    /// failing elements of the specification.
    pub fn keep(&mut self, pair: Pair, kept: BoxedKept) -> Result<(), BoxedKept>
        ensures rows { OnOk result (self.new ≡ having (with_row pair (keeping kept) self.old.rows) self.old) }
        ensures stays { OnErr result (self.new ≡ self.old) }
        ensures back { IfErr result (λ back. back ≡ kept) }
    {
        let Some(was) = self.table.counts(pair) else {
            return Ok(());
        };
        match self.tallies.take_in(&pair, was, kept.get()) {
            Err(_) => Err(kept),
            Ok(()) => {
                self.table.keep(pair, kept);
                Ok(())
            }
        }
    }

    /// Marks that a claim of the pair is out, or that none is, if the pair has a row. `O(log n)`.
    pub fn mark_out(&mut self, pair: Pair, out: bool)
        ensures { self.new ≡ having (with_row pair (marking out) self.old.rows) self.old }
    {
        self.table.mark_out(pair, out);
    }

    /// Drops what is kept in the pair's row, if it needs the key. It takes no memory. `O(log n + k)` for
    /// `k` needed keys, and a move of failing elements of the specification.
    pub fn unsettle(&mut self, pair: Pair, key: Key)
        ensures ascending { AreAscending self.old.rows }
        ensures rows { self.new ≡ having (with_row pair (without_key key) self.old.rows) self.old }
    {
        if let Some(kept) = self.table.unsettle(pair, key) {
            let was = applies(&kept.get().verdict);
            self.tallies.take_back(&pair, was);
        }
    }

    /// Takes the pair's row out, if it has one. It takes no memory. `O(log n)`, and a move of the rows
    /// behind it and of failing elements of the specification.
    pub fn remove(&mut self, pair: Pair)
        ensures ascending { AreAscending self.old.rows }
        ensures rows { self.new ≡ having (without_row pair self.old.rows) self.old }
    {
        if let Some(kept) = self.table.remove(pair) {
            let counted = applies(&kept.get().verdict);
            self.tallies.take_back(&pair, counted);
        }
    }

    /// Adds a row for each of these pairs, of which none has one, in this memory, which is enough. A
    /// move of the rows, and for each pair `O(log n)` and a move of the rows behind it.
    pub fn add_all(&mut self, come: &[Pair], space: TableSpace)
        requires fresh { AreNew (pairs_of self.old.rows) come.now }
        requires memory { length self.old.rows + length come.now ≤ space }
        ensures { self.new ≡ having (fold with_pair self.old.rows come.now) self.old }
    {
        self.table.add_all(come, space);
    }
}
