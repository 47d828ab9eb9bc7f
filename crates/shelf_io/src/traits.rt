ghost use Rattle.std.specs.Prelude.{◌≡◌, ◌≤◌, ◌+◌, ℕ, List, ◌∷◌, Option, length, take};
ghost use Rattle.std.specs.Prelude.{IfOk, IfSome, IsErr, IsOk, OnOk, MatchResult};
ghost use Rattle.std.specs.Str.{chars};
ghost use Rattle.shelf_io.specs.Causes.{HasCause};
ghost use Rattle.shelf_io.specs.Pieces.{Files, file_told, IsMissing, IsPiece, IsTaken, Appended};
ghost use Rattle.shelf_io.specs.Reads.{Read, answered};

/// A read or a write that failed.
#[derive(Clone, Copy, Debug, PartialEq, Eq)]
pub struct Failed;

/// Files by name, of which the bytes can be read in pieces.
///
/// A shelf says what it holds, or `None` where it doesn't tell; what it was asked for and what it
/// answered, which a `ReadLog` keeps for it and which says nothing of what the shelf itself does in a
/// call; how many faults it has had, at most 2^64 - 1; and at which
/// names it is steady, which a shelf that promises nothing leaves at its default.
pub trait Shelf {
    /// What the shelf holds, where it tells.
    ghost held: { Self → Option Files };

    /// Each read so far with its answer, the newest first.
    ghost reads: { Self → List Read };

    /// How often it has failed.
    ghost faults: { Self → ℕ };

    /// From now on no read of this name fails, unless the shelf tells that it holds no file of the name.
    ghost steady: { Self → List ℕ → Type 0 } = { λ _ _. ⊥ };

    /// Reads from the file of this name, from the place `from` on (0 is its first byte), into the front
    /// of the buffer, and answers how many bytes it read; 0 for a buffer with room is the end of the
    /// file. It may read fewer bytes than there are. A missing file is a fault. What stands in the
    /// buffer behind the bytes that were read, or after `Failed`, isn't said.
    fn read_at(&mut self, name: &str, from: u64, into: &mut [u8]) -> Result<usize, Failed>
        ensures held { held self.new ≡ held self.old }
        ensures logged { reads self.new
            ≡ (chars name.now, from, length into.old, answered result into.new) ∷ reads self.old }
        ensures bound { IfOk result (λ n. n ≤ length into.new) }
        ensures bytes { IfOk result (λ n. IfSome (file_told (held self.old) (chars name.now))
            (λ bytes. IsPiece bytes from n into.new)) }
        ensures missing { IsMissing (held self.old) (chars name.now) → IsErr result }

        // It fails only where the count rose, and the count rises only where it fails.
        ensures cause { HasCause (faults self.old) (faults self.new) result }
        ensures calm { OnOk result (faults self.new ≡ faults self.old) }

        ensures steady { (other : List ℕ) → steady self.old other → steady self.new other }
        ensures sure { steady self.old (chars name.now) → IsErr result
            → IsMissing (held self.old) (chars name.now) };
}

/// Where bytes are written, in order.
///
/// A sink says what was written so far, or `None` where it doesn't tell; how many faults it has had, at
/// most 2^64 - 1; and how many bytes it is sure to take, which a sink that promises nothing leaves at
/// its default.
pub trait Sink {
    /// The bytes written so far, where the sink tells them.
    ghost written: { Self → Option (List ℕ) };

    /// How often it has failed.
    ghost faults: { Self → ℕ };

    /// From now on no write fails within this many bytes.
    ghost sure: { Self → ℕ → Type 0 } = { λ _ _. ⊥ };

    /// Writes a part of the bytes from their front, and answers how many: at least one, unless there is
    /// none. A sink that takes nothing of a piece fails. After `Failed` no byte of this call was
    /// written.
    fn write(&mut self, bytes: &[u8]) -> Result<usize, Failed>
        ensures taken { IfOk result (λ n. IsTaken n bytes.now) }
        ensures written { MatchResult result
            (λ n. Appended (written self.old) (written self.new) (take n bytes.now))
            (λ _. written self.new ≡ written self.old) }

        // It fails only where the count rose, and the count rises only where it fails.
        ensures cause { HasCause (faults self.old) (faults self.new) result }
        ensures calm { OnOk result (faults self.new ≡ faults self.old) }

        ensures sure { (more : ℕ) → sure self.old (length bytes.now + more) → IsOk result }
        ensures left { IfOk result (λ n. (more : ℕ) → sure self.old (n + more) → sure self.new more) };
}
