ghost use Rattle.std.specs.Prelude.{◌≡◌, ◌<◌, ◌≤◌, ◌+◌, length, fold, None, IfOk, vec_capacity};
ghost use Rattle.dirty_board.specs.Rows.{row_place, IsTable};
ghost use Rattle.dirty_board.specs.Rooms.{pairs_of, with_pair, AreNew};

use crate::flags::{Flags, Space};
use crate::moves::insert_within;
use crate::rows::Row;
use crate::table::place_before;
use audit_model::Pair;
use ifc_base::Memory;
use std::alloc::Global;
use std::marker::Model;

/// Memory for the rows of a table. Contracts see for how many.
#[derive(Drop)]
pub struct TableSpace {
    pub(crate) rows: Vec<Row>,
    pub(crate) unsettled: Space,
    pub(crate) claimable: Space,
}

impl Model for TableSpace {
    ghost use Rattle.std.specs.Prelude.{◌≡◌, ℕ, [], min, vec_capacity};

    ghost Value = { ℕ };

    ghost view = { λ space. min (vec_capacity space.rows) (min space.unsettled space.claimable) };

    ghost invariant = { λ space. space.rows.items ≡ [] };
}

impl TableSpace {
    /// Memory for so many rows. `O(1)`.
    pub fn new(alloc: Global, count: usize) -> Result<TableSpace, Memory>
        ensures { IfOk result (λ space. count ≤ space) }
    {
        let rows = Vec::with_capacity(alloc, count)?;
        let unsettled = Space::new(alloc, count)?;
        let claimable = Space::new(alloc, count)?;
        Ok(TableSpace {
            rows,
            unsettled,
            claimable,
        })
    }
}

/// Adds a row for the pair, of which nothing is kept, where there is memory for it.
fn add_row(rows: &mut Vec<Row>, unsettled: &mut Flags, claimable: &mut Flags, pair: Pair)
    requires table { IsTable rows.old.items unsettled.old.flags claimable.old.flags }
    requires fresh { row_place pair rows.old.items ≡ None }
    requires memory { length rows.old.items < vec_capacity rows.old }
    requires first_memory { length rows.old.items < unsettled.old.places }
    requires second_memory { length rows.old.items < claimable.old.places }
    ensures rows { rows.new.items ≡ with_pair rows.old.items pair }
    ensures table { IsTable rows.new.items unsettled.new.flags claimable.new.flags }
    ensures length { length rows.new.items ≡ length rows.old.items + 1 }
    ensures capacity { vec_capacity rows.old ≤ vec_capacity rows.new }
    ensures first_places { unsettled.old.places ≤ unsettled.new.places }
    ensures second_places { claimable.old.places ≤ claimable.new.places }
{
    let place = place_before(rows, &pair);
    let row = Row {
        pair,
        kept: None,
        out: false,
    };
    insert_within(rows, place, row);
    unsettled.insert(place);
    claimable.insert(place);
}

/// Adds a row for each of these pairs, where there is memory for them.
pub fn add_rows(rows: &mut Vec<Row>, unsettled: &mut Flags, claimable: &mut Flags, come: &[Pair])
    requires table { IsTable rows.old.items unsettled.old.flags claimable.old.flags }
    requires fresh { AreNew (pairs_of rows.old.items) come.now }
    requires memory { length rows.old.items + length come.now ≤ vec_capacity rows.old }
    requires first_memory { length rows.old.items + length come.now ≤ unsettled.old.places }
    requires second_memory { length rows.old.items + length come.now ≤ claimable.old.places }
    ensures rows { rows.new.items ≡ fold with_pair rows.old.items come.now }
    ensures table { IsTable rows.new.items unsettled.new.flags claimable.new.flags }
{
    for pair in come {
        add_row(rows, unsettled, claimable, *pair);
    }
}
