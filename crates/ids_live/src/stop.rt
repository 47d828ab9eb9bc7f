ghost use Rattle.std.specs.Prelude.{◌≡◌};

use crate::refused::Refused;
use ifc_base::Refusal;
use shelf_io::Failed;

/// Why the inputs were not loaded.
#[derive(Debug, PartialEq, Eq, Drop)]
pub enum Stop {
    /// The shelf failed.
    Shelf,
    Memory,
    /// An input is too long, or isn't of its form.
    Refused(Refused),
}

impl From<Refusal<Failed>> for Stop {
    ghost use Rattle.std.specs.Prelude.{◌≡◌};
    ghost use Rattle.ids_live.specs.Failures.{stop_of};

    ghost from_gives = { λ refusal stopped. stopped ≡ stop_of refusal };

    fn from(refusal: Refusal<Failed>) -> Stop {
        match refusal {
            Refusal::Fault(Failed) => Stop::Shelf,
            Refusal::Memory => Stop::Memory,
        }
    }
}
