ghost use Rattle.std.specs.Prelude.{◌≡◌, ℕ, ◌≤◌, ◌<◌, ◌^◌, SomeIff};

use std::marker::Model;

/// The number behind the `#` of an instance (ISO 10303-21, entity instance name), from 1 to
/// 2,147,483,647. Contracts see the number; `==`, order and hash are the number's.
#[derive(Clone, Copy, Debug, PartialEq, Eq, PartialOrd, Ord, Hash)]
pub struct InstId {
    number: u32,
}

impl Model for InstId {
    ghost Value = { ℕ };

    ghost view = { λ id. id.number };

    ghost invariant = { λ id. (1 ≤ id.number) × (id.number < 2 ^ 31) };

    ghost inverse = { λ n. record { number = n } };
}

impl InstId {
    /// The id of this number; None exactly outside 1 to 2,147,483,647. `O(1)`.
    pub fn new(n: u32) -> Option<InstId>
        ensures { SomeIff result ((1 ≤ n) × (n < 2 ^ 31)) n }
    {
        if n >= 1 && n <= 2_147_483_647 {
            Some(InstId { number: n })
        } else {
            None
        }
    }

    /// The id's number. `O(1)`.
    pub fn get(self) -> u32
        ensures value { result ≡ self }
        ensures low { 1 ≤ result }
        ensures high { result < 2 ^ 31 }
    {
        self.number
    }
}
