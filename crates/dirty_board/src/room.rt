ghost use Rattle.std.specs.Prelude.{◌≡◌, ◌<◌, ◌≤◌, ◌+◌, ◌^◌, length, IfOk};

use crate::adding::TableSpace;
use audit_model::Pair;
use ifc_base::Memory;
use std::alloc::Global;
use std::marker::Model;

/// What a commit does to the pairs, with the memory that this takes. Contracts see the pairs that go,
/// those that come, and how many rows there may be before.
#[derive(Drop)]
pub struct Room {
    pub(crate) gone: Vec<Pair>,
    pub(crate) come: Vec<Pair>,
    pub(crate) size: usize,
    pub(crate) space: TableSpace,
}

impl Model for Room {
    ghost use Rattle.std.specs.Prelude.{◌<◌, ◌≤◌, ◌+◌, length};
    ghost use Rattle.dirty_board.specs.Rooms.{RoomView};

    ghost Value = { RoomView };

    ghost view = { λ room. record { gone = room.gone.items; come = room.come.items; size = room.size } };

    ghost invariant = { λ room. 0 < length room.come.items → room.size + length room.come.items ≤ room.space };
}

/// For how many rows memory is taken; none where no pair comes.
fn places(size: usize, come: &[Pair]) -> usize
    requires fits { size < 2 ^ 63 }
    ensures { 0 < length come.now → size + length come.now ≤ result }
{
    if come.is_empty() {
        0
    } else {
        size + come.len()
    }
}

impl Room {
    /// The room for these pairs to go and come, where there are so many rows. It takes the memory of as
    /// many rows if a pair comes, and else that of the pairs alone.
    pub fn new(alloc: Global, size: usize, gone: &[Pair], come: &[Pair]) -> Result<Room, Memory>
        requires fits { size < 2 ^ 63 }
        ensures { IfOk result (λ room. room ≡ record { gone = gone.now; come = come.now; size = size }) }
    {
        let space = TableSpace::new(alloc, places(size, come))?;
        let gone = Vec::from_slice(alloc, gone)?;
        let come = Vec::from_slice(alloc, come)?;
        Ok(Room {
            gone,
            come,
            size,
            space,
        })
    }
}
