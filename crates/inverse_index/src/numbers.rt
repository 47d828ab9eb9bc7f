ghost use Rattle.std.specs.Prelude.{◌≡◌, ◌*◌, ◌/◌, ◌%◌, ◌<◌, ◌^◌};
ghost use Rattle.ifc_base.specs.KeyOrder.{role_rank};
ghost use Rattle.inverse_index.specs.Numbers.{key_number};

use ifc_base::{InstId, Key, Role};

/// The place of a role in the order of roles, from 0.
fn rank(role: Role) -> u64
    ensures value { result ≡ role_rank role }
    ensures room { result < 16 }
{
    u64::from(role.number()) - 1
}

/// The first number of the block of an id.
fn block(id: InstId) -> u64
    ensures value { result ≡ id / 32 * 1024 }
    ensures room { result < 2 ^ 37 }
{
    id.get() as u64 / 32 * 1024
}

/// The place of an id among the 32 of its block, from 0.
fn within(id: InstId) -> u64
    ensures value { result ≡ id % 32 }
    ensures room { result < 32 }
{
    id.get() as u64 % 32
}

/// The number under which the key stands in a tree. `O(1)`.
pub(crate) fn key_number(key: Key) -> u64
    ensures value { result ≡ key_number key }
    ensures room { result < 2 ^ 40 }
{
    match key {
        Key::Inst(id) => block(id) + within(id),
        Key::Refs(id, role) => block(id) + (512 + within(id) * 16 + rank(role)),
    }
}
