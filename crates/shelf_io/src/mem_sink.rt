ghost use Rattle.std.specs.Prelude.{◌≡◌, ◌<◌, ◌==◌, [], length, IfOk, Some};
ghost use Rattle.std.specs.List.{list_any};

use crate::traits::{Failed, Sink};
use ifc_base::{Memory, Numbers};
use std::alloc::Global;
use std::marker::Model;

/// A sink in memory, for tests. It tells what was written, takes at most so many bytes a call, and fails
/// at the calls that it is told and where its room is full.
#[derive(Debug, Drop)]
pub struct MemSink {
    bytes: Vec<u8>,
    room: usize,
    most: usize,
    calls: u64,
    failing: Numbers,
    faults: u64,
}

impl Model for MemSink {
    ghost use Rattle.std.specs.Prelude.{◌≤◌, ◌<◌, length, vec_capacity};
    ghost use Rattle.shelf_io.specs.Memory.{SinkState};

    ghost Value = { SinkState };

    ghost view = { λ s. record {
      written = s.bytes.items;
      room = s.room;
      most = s.most;
      calls = s.calls;
      failing = s.failing;
      faults = s.faults;
    } };

    ghost invariant = { λ s. (length s.bytes.items ≤ s.room)
        × (s.room ≤ vec_capacity s.bytes) × (0 < s.most) };
}

impl MemSink {
    /// A sink with room for `room` bytes, taken at once; the only refusal is want of memory. A call
    /// takes at most `most` bytes, and those whose numbers, from 1, are in `failing` fail. `O(1)`.
    pub fn new(alloc: Global, room: usize, most: usize, failing: Numbers) -> Result<MemSink, Memory>
        requires { 0 < most }
        ensures { IfOk result (λ sink. sink ≡ record {
          written = [];
          room = room;
          most = most;
          calls = 0;
          failing = failing;
          faults = 0;
        }) }
    {
        Ok(MemSink {
            bytes: Vec::with_capacity(alloc, room)?,
            room,
            most,
            calls: 0,
            failing,
            faults: 0,
        })
    }

    /// What was written so far. `O(1)`.
    pub fn bytes(&self) -> &[u8]
        ensures { result.now ≡ self.now.written }
    {
        self.bytes.as_slice()
    }
}

/// Whether the number is in the list.
pub(crate) fn is_listed(numbers: &[u32], number: u64) -> bool
    ensures { result ≡ list_any (λ n. n == number) numbers.now }
{
    numbers.iter().any(|n| u64::from(*n) == number)
}

/// A write costs `O(n)` for `n` bytes taken.
impl Sink for MemSink {
    ghost use Rattle.std.specs.Prelude.{◌≡◌, ◌+◌, ℕ, Some, not, length, take, IfOk, IsOk, OnOk, OnErr, MatchResult};
    ghost use Rattle.std.specs.Result.{is_ok};
    ghost use Rattle.shelf_io.specs.Causes.{HasCause, next_count};
    ghost use Rattle.shelf_io.specs.Pieces.{IsTaken, Appended};
    ghost use Rattle.shelf_io.specs.Memory.{IsSure, share_of, fails_on};

    ghost written = { λ s. Some s.written };

    ghost faults = { λ s. s.faults };

    ghost sure = { IsSure };

    fn write(&mut self, bytes: &[u8]) -> Result<usize, Failed>
        ensures taken { IfOk result (λ n. IsTaken n bytes.now) }
        ensures written { MatchResult result
            (λ n. Appended (Some self.old.written) (Some self.new.written) (take n bytes.now))
            (λ _. Some self.new.written ≡ Some self.old.written) }
        ensures cause { HasCause self.old.faults self.new.faults result }
        ensures calm { OnOk result (self.new.faults ≡ self.old.faults) }
        ensures sure { (more : ℕ) → IsSure self.old (length bytes.now + more) → IsOk result }
        ensures left { IfOk result (λ n. (more : ℕ) → IsSure self.old (n + more) → IsSure self.new more) }

        // Of this sink is said besides which call fails, how much it takes, and that it counts the calls,
        // and the faults one by one.
        ensures answer { is_ok result ≡ not (fails_on self.old (length bytes.now)) }
        ensures share { IfOk result (λ n. n ≡ share_of self.old (length bytes.now)) }
        ensures counted { self.new ≡ record self.old {
          written = self.new.written;
          calls = next_count self.old.calls;
          faults = self.new.faults;
        } }
        ensures once { OnErr result (self.new.faults ≡ next_count self.old.faults) }
    {
        self.calls = self.calls.saturating_add(1);
        let left = self.room - self.bytes.len();
        let count = bytes.len().min(self.most).min(left);
        let fails = is_listed(self.failing.as_slice(), self.calls);
        if fails || (count == 0 && !bytes.is_empty()) {
            self.faults = self.faults.saturating_add(1);
            return Err(Failed);
        }
        self.bytes.extend_from_slice(&bytes[..count]).unwrap();
        Ok(count)
    }
}
