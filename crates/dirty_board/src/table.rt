ghost use Rattle.std.specs.Prelude.{◌≡◌, ◌<◌, ◌≤◌, ◌+◌, ◌^◌, length, map, find, fold, None, Some, true, false, [], IfOk, OnOk, is_none, is_some, vec_capacity};
ghost use Rattle.std.specs.Option.{option_map, option_copied};
ghost use Rattle.std.specs.List.{list_any, prefix_len};
ghost use Rattle.audit_model.specs.Pairs.{same_pair};
ghost use Rattle.audit_model.specs.Laws.{ArePairsAscending};
ghost use Rattle.ifc_base.specs.KeyOrder.{key_eq};
ghost use Rattle.dirty_board.specs.Rows.{below, row_at, row_place, with_row, without_row, keeping, kept_in, dropped_in, dropping, marking, without_key, needs_key, kept_needs, new_row};
ghost use Rattle.dirty_board.specs.Rows.{least_unsettled, least_claimable, AreAscending, is_claimable, is_unsettled, IsTable};
ghost use Rattle.dirty_board.specs.Rooms.{pairs_of, with_pair, AreNew};
ghost use Rattle.dirty_board.specs.Tallying.{counted_in, is_counted};

use crate::adding::{TableSpace, add_rows};
use crate::flags::Flags;
use crate::moves::move_within;
use crate::rows::{BoxedKept, Row};
use crate::tallies::applies;
use audit_model::Pair;
use ifc_base::{Key, Memory};
use std::alloc::Global;
use std::marker::Model;

/// Whether the two pairs are one.
pub fn is_same(one: Pair, other: Pair) -> bool
    ensures { result ≡ same_pair one other }
{
    one.spec == other.spec && one.elem == other.elem
}

/// Whether the one pair comes before the other.
pub fn is_below(one: Pair, other: Pair) -> bool
    ensures { result ≡ below one other }
{
    one.spec < other.spec || (one.spec == other.spec && one.elem < other.elem)
}

/// How many rows are of pairs that come before this one. `O(log n)` in the number of rows.
pub fn place_before(rows: &[Row], pair: &Pair) -> usize
    requires { AreAscending rows.now }
    ensures value { result ≡ prefix_len (λ r. below r.pair pair.now) rows.now }
    ensures within { result ≤ length rows.now }
{
    let key = *pair;
    rows.partition_point(
        |row: &Row| -> bool
            ensures { result ≡ below row.now.pair key }
        { is_below(row.pair, key) },
    )
}

/// The place of the pair's row, if it has one. `O(log n)` in the number of rows.
pub fn place_of(rows: &[Row], pair: Pair) -> Option<usize>
    requires { AreAscending rows.now }
    ensures { result ≡ row_place pair rows.now }
{
    let place = place_before(rows, &pair);
    let row = rows.get(place)?;
    if is_same(pair, row.pair) {
        Some(place)
    } else {
        None
    }
}

/// Whether the key is one of these. `O(k)` in their number.
fn has_key(keys: &[Key], key: Key) -> bool
    ensures { result ≡ list_any (λ j. key_eq j key) keys.now }
{
    keys.iter().any(|one| *one == key)
}

/// Whether what is kept needs the key. `O(k)` in the number of needed keys.
fn needs(row: &Row, key: Key) -> bool
    ensures { result ≡ needs_key key row.now }
{
    match &row.kept {
        None => false,
        Some(kept) => has_key(kept.get().needs.as_slice(), key),
    }
}

/// Whether what is kept says that the specification applies.
fn is_counted(row: &Row) -> bool
    ensures { result ≡ is_counted row.now.kept }
{
    match &row.kept {
        None => false,
        Some(kept) => applies(&kept.get().verdict),
    }
}

/// Whether the pair can be claimed, if a claim of it is out or not, as it is said.
fn may_claim(row: &Row, out: bool) -> bool
    ensures { result ≡ is_claimable (marking out row.now) }
{
    row.kept.is_none() && !out
}

/// The rows, with what finds the least of them.
#[derive(Drop)]
pub struct Table {
    rows: Vec<Row>,
    unsettled: Flags,
    claimable: Flags,
}

impl Model for Table {
    ghost use Rattle.std.specs.Prelude.{List};
    ghost use Rattle.std.specs.Coded.{coded_list};
    ghost use Rattle.dirty_board.specs.declared.rows.Row.{Row};
    ghost use Rattle.dirty_board.specs.Rows.{IsTable};

    ghost Value = { List Row };

    ghost view = { λ table. table.rows.items };

    ghost invariant = { λ table. IsTable table.rows.items table.unsettled.flags table.claimable.flags };
}

/// A row for each of these pairs, of which nothing is kept and none is out.
fn new_rows(alloc: Global, pairs: &[Pair]) -> Result<Vec<Row>, Memory>
    ensures { IfOk result (λ rows. rows.items ≡ map new_row pairs.now) }
{
    let mut rows = Vec::new(alloc);
    for pair in pairs {
        rows.push(Row {
            pair: *pair,
            kept: None,
            out: false,
        })?;
    }
    Ok(rows)
}

/// For each of these pairs a flag that is set.
fn new_flags(alloc: Global, pairs: &[Pair]) -> Result<Flags, Memory>
    ensures unsettled { IfOk result (λ flags. flags.flags ≡ map is_unsettled (map new_row pairs.now)) }
    ensures claimable { IfOk result (λ flags. flags.flags ≡ map is_claimable (map new_row pairs.now)) }
{
    let mut flags = Vec::new(alloc);
    for _pair in pairs {
        flags.push(true)?;
    }
    let row = Flags::of(alloc, flags)?;
    Ok(row)
}

impl Table {
    /// A row for each of these pairs, which ascend. `O(n)` in their number.
    pub fn new(alloc: Global, pairs: &[Pair]) -> Result<Table, Memory>
        requires { ArePairsAscending pairs.now }
        ensures { IfOk result (λ rows. rows ≡ map new_row pairs.now) }
    {
        let rows = new_rows(alloc, pairs)?;
        let unsettled = new_flags(alloc, pairs)?;
        let claimable = new_flags(alloc, pairs)?;
        Ok(Table {
            rows,
            unsettled,
            claimable,
        })
    }

    /// The rows, in order. `O(1)`.
    pub fn rows(&self) -> &[Row]
        ensures rows { result.now ≡ self.now }
        ensures ascending { AreAscending result.now }
    {
        self.rows.as_slice()
    }

    /// Keeps this in the pair's row, if it has one. It takes no memory. `O(log n)`.
    pub fn keep(&mut self, pair: Pair, kept: BoxedKept)
        ensures { self.new ≡ with_row pair (keeping kept) self.old }
    {
        if let Some(place) = place_of(&self.rows, pair) {
            self.rows[place].kept = Some(kept);
            self.unsettled.put(place, false);
            self.claimable.put(place, false);
        }
    }

    /// Marks that a claim of the pair is out, or that none is, if the pair has a row. `O(log n)`.
    pub fn mark_out(&mut self, pair: Pair, out: bool)
        ensures { self.new ≡ with_row pair (marking out) self.old }
    {
        if let Some(place) = place_of(&self.rows, pair) {
            let claimable = may_claim(&self.rows[place], out);
            self.rows[place].out = out;
            self.claimable.put(place, claimable);
        }
    }

    /// Whether what is kept in the pair's row says that the specification applies, if the pair has a row.
    /// `O(log n)`.
    pub fn counts(&self, pair: Pair) -> Option<bool>
        ensures ascending { AreAscending self.now }
        ensures value { result ≡ counted_in (row_at pair self.now) }
    {
        match place_of(&self.rows, pair) {
            None => None,
            Some(place) => Some(is_counted(&self.rows[place])),
        }
    }

    /// Drops what is kept in the pair's row, if it needs the key, and hands it out. It takes no memory.
    /// `O(log n + k)` for `k` needed keys.
    pub fn unsettle(&mut self, pair: Pair, key: Key) -> Option<BoxedKept>
        ensures ascending { AreAscending self.old }
        ensures rows { self.new ≡ with_row pair (without_key key) self.old }
        ensures dropped { result ≡ dropped_in key (row_at pair self.old) }
    {
        match place_of(&self.rows, pair) {
            None => None,
            Some(place) => {
                if !needs(&self.rows[place], key) {
                    return None;
                }
                let claimable = !self.rows[place].out;
                let dropped = self.rows[place].kept.take();
                self.unsettled.put(place, true);
                self.claimable.put(place, claimable);
                dropped
            }
        }
    }

    /// The least unsettled pair.
    pub fn least_unsettled(&self) -> Option<Pair>
        ensures { result ≡ least_unsettled self.now }
    {
        let place = self.unsettled.first()?;
        Some(self.rows[place].pair)
    }

    /// The least unsettled pair that isn't out.
    pub fn least_claimable(&self) -> Option<Pair>
        ensures { result ≡ least_claimable self.now }
    {
        let place = self.claimable.first()?;
        Some(self.rows[place].pair)
    }

    /// Takes the pair's row out, if it has one, and hands out what was kept in it. It takes no memory.
    /// `O(log n)`, and a move of the rows behind it.
    pub fn remove(&mut self, pair: Pair) -> Option<BoxedKept>
        ensures rows { self.new ≡ without_row pair self.old }
        ensures kept { result ≡ kept_in (row_at pair self.old) }
        ensures ascending { AreAscending self.old }
    {
        match place_of(&self.rows, pair) {
            None => None,
            Some(place) => {
                let row = self.rows.remove(place);
                self.unsettled.remove(place);
                self.claimable.remove(place);
                row.kept
            }
        }
    }

    /// How many rows there are. `O(1)`.
    pub fn len(&self) -> usize
        ensures value { result ≡ length self.now }
        ensures small { result < 2 ^ 63 }
    {
        self.rows.len()
    }

    /// Adds a row for each of these pairs, of which none has one, in this memory, which is enough. A
    /// move of the rows, and for each pair `O(log n)` and a move of the rows behind it.
    pub fn add_all(&mut self, come: &[Pair], space: TableSpace)
        requires fresh { AreNew (pairs_of self.old) come.now }
        requires memory { length self.old + length come.now ≤ space }
        ensures ascending { AreAscending self.old }
        ensures rows { self.new ≡ fold with_pair self.old come.now }
    {
        let TableSpace {
            rows,
            unsettled,
            claimable,
        } = space;
        move_within(&mut self.rows, rows);
        self.unsettled.move_into(unsettled);
        self.claimable.move_into(claimable);
        add_rows(
            &mut self.rows,
            &mut self.unsettled,
            &mut self.claimable,
            come,
        );
    }
}
