//! Turns at a log under the lock.
ghost use Rattle.std.specs.Prelude.{◌≡◌, ◌∷◌, [], false, vec_len, IfOk};
ghost use Rattle.seen_lock.specs.Words.{id_of};
ghost use Rattle.seen_lock.specs.Lists.{IsFree, AreFree};
ghost use Rattle.lock_tests.specs.Turns.{Turns, Looks};

use crate::log::{Log, Note};
use ifc_base::Memory;
use seen_lock::{Seat, SeenLock};
use std::alloc::AllocError;
use std::sync::Wait;
use std::thread;
use std::thread::Threads;

/// Adds a note in the turn of the seat, or nothing for want of memory.
pub fn add<R: Wait>(
    rt: &R,
    lock: &SeenLock<Log>,
    seat: &mut Seat<Note>,
    value: u64,
) -> Result<(), Memory>
    requires { IsFree (id_of lock.now) seat.old.number seat.old }
    ensures seat { IsFree (id_of lock.now) seat.old.number seat.new }
    ensures turn { Turns seat.old value result seat.new }
{
    let by = seat.number();
    let mut held = lock.enter(rt, seat);
    let reply = held.state().add(by, value);
    lock.leave(seat, held);
    reply
}

/// Whether the seat finds this note first, in a turn that adds nothing.
pub fn finds<R: Wait>(
    rt: &R,
    lock: &SeenLock<Log>,
    seat: &mut Seat<Note>,
    by: u32,
    value: u64,
) -> bool
    requires { IsFree (id_of lock.now) seat.old.number seat.old }
    ensures seat { IsFree (id_of lock.now) seat.old.number seat.new }
    ensures turn { Looks seat.old seat.new }
{
    let mut held = lock.enter(rt, seat);
    let found = match held.state().notes.first() {
        Some(note) => note.by == by && note.value == value,
        None => false,
    };
    lock.leave(seat, held);
    found
}

/// Adds notes with the values from 0 up to below this number, each in a turn of its own, as far as there
/// is memory.
pub fn add_all<R: Wait>(
    rt: &R,
    lock: &SeenLock<Log>,
    mut seat: Seat<Note>,
    turns: u64,
) -> Seat<Note>
    requires { IsFree (id_of lock.now) seat.number seat }
    ensures { IsFree (id_of lock.now) seat.number result }
{
    for value in 0..turns {
        let _ = add(rt, lock, &mut seat, value);
    }
    seat
}

/// The same for each seat, each in a thread. The seats come back in their order.
pub fn in_threads<R: Threads + Wait + Sync>(
    rt: &R,
    lock: &SeenLock<Log>,
    seats: Vec<Seat<Note>>,
    turns: u64,
) -> Result<Vec<Seat<Note>>, AllocError>
    requires { AreFree (id_of lock.now) 0 seats.items }
    ensures { IfOk result (λ back. (vec_len back ≡ vec_len seats) × AreFree (id_of lock.now) 0 back.items) }
{
    let run = |seat: Seat<Note>| -> Seat<Note>
        requires { IsFree (id_of lock.now) seat.number seat }
        ensures { IsFree (id_of lock.entry.now) seat.number result }
    { add_all(rt, lock, seat, turns) };
    let back = thread::map_vec(rt, seats, &run)?;
    Ok(back)
}
