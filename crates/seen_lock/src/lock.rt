//! The lock: a table of three words and one slot, and its rule.
ghost use Rattle.std.specs.Prelude.{◌≡◌, ◌<◌};

use crate::journaled::Journaled;
use crate::known::Known;
use atomic_table::{Table, TableRule};
use std::alloc::Global;
use std::snapshot::Snapshot;

/// What the lock began with: its first state, of which no byte is kept, and how many seats it has.
pub struct Origin<S> {
    pub state: Snapshot<S>,
    pub seats: u32,
}

impl<S> Drop for Origin<S> {
    fn drop(self) {
        let Self { state: _, seats: _ } = self;
    }
}

/// The rule of the lock's table.
pub struct Order;

impl<S: Journaled> TableRule<Option<S>, Known<S::Entry>, Origin<S>> for Order {
    ghost use Rattle.std.specs.Prelude.{◌≡◌};
    ghost use Rattle.seen_lock.specs.Order.{Kept, newcomer};

    ghost holds = { λ key.
        Kept S.entries S.maker (λ y. S.ground y ≡ S.ground key.state.value) (S.entries key.state.value) key.seats };

    ghost first = { λ key. newcomer (S.entries key.state.value) key.seats };
}

/// A seat as the table knows it.
pub(crate) type Place<S, E> = atomic_table::Seat<Option<S>, Known<E>>;

/// A lock over a state, which its seats enter in turn.
///
/// Contracts see which lock it is, the state that it began with, and how many seats it has. It may be
/// shared by threads where the state may be sent to them. `close` ends it and gives the state; where the
/// state may be let go, so may the lock.
#[derive(Drop)]
pub struct SeenLock<S: Journaled> {
    pub(crate) table: Table<Option<S>, Known<S::Entry>, Origin<S>, Order, Global>,
    ghost sized: { (table.shared.table_id.words ≡ 3) × (table.shared.table_id.slots ≡ 1) },
    ghost seated: { 0 < table.shared.key.seats },
}
