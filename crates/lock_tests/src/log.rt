//! A log of notes, the state that the tests put under the lock.
ghost use Rattle.std.specs.Prelude.{◌≡◌, ℕ, [], ◌∷◌, ◌++◌, length, OnErr, OnOk};
ghost use Rattle.lock_tests.specs.Logs.{note};

use ifc_base::Memory;
use seen_lock::Journaled;
use std::alloc::Global;

/// What one seat wrote.
#[derive(Drop)]
pub struct Note {
    pub by: u32,
    pub value: u64,
}

/// Notes in the order in which they were made, and a limit that stays.
#[derive(Drop)]
pub struct Log {
    pub notes: Vec<Note>,
    pub limit: u64,
}

impl Journaled for Log {
    type Entry = Note;

    ghost entries = { λ l. l.notes.items };

    ghost maker = { λ e. e.by };

    ghost Ground = { ℕ };

    ghost ground = { λ l. l.limit };

    fn length(&self) -> u64 {
        self.notes.len() as u64
    }
}

impl Log {
    /// A log of no notes.
    pub fn new(alloc: Global, limit: u64) -> Log
        ensures { (result.notes.items ≡ []) × (result.limit ≡ limit) }
    {
        Log {
            notes: Vec::new(alloc),
            limit,
        }
    }

    /// Adds a note at the end, or nothing for want of memory.
    pub fn add(&mut self, by: u32, value: u64) -> Result<(), Memory>
        ensures ok { OnOk result (self.new.notes.items ≡ self.old.notes.items ++ note by value ∷ []) }
        ensures err { OnErr result (self.new.notes.items ≡ self.old.notes.items) }
        ensures limit { self.new.limit ≡ self.old.limit }
    {
        match self.notes.push(Note { by, value }) {
            Ok(()) => Ok(()),
            Err(_) => Err(Memory),
        }
    }
}
