//! A value with a history.
ghost use Rattle.std.specs.Prelude.{◌≡◌, ℕ, List, length};

/// A value that stores a list of entries, each made by one seat, beside a ground that stays the same.
pub trait Journaled {
    /// What the history is a list of.
    type Entry;

    // All the entries that are stored, the oldest first.
    ghost entries: { Self → List Self.Entry };

    // The number of the seat that made an entry.
    ghost maker: { Self.Entry → ℕ };

    // The type of the ground: plain data.
    ghost Ground: { Type 0 };

    // What stays the same in every turn.
    ghost ground: { Self → Ground };

    /// How many entries are stored. The lock calls it once when it is made and twice a turn, so it is to
    /// be `O(1)`.
    fn length(&self) -> u64
        ensures { result ≡ length (entries self.now) };
}
