ghost use Rattle.std.proofs.Common.{inl};
ghost use Rattle.std.specs.Prelude.{◌≡◌, ◌++◌, IfOk, OnOk, refl};
ghost use Rattle.audit_model.specs.Paths.{above, ancestors};
ghost use Rattle.audit_model.specs.Relations.{roles_of};
ghost use Rattle.facet_paths.specs.Reads.{Reads};

use crate::hops::push_relating;
use crate::members::in_order;
use audit_model::{Look, Relation};
use closure_walk::{Step, close};
use ifc_base::{InstId, Key, Memory, Role};
use schema_table::SchemaTable;
use std::alloc::Global;
use std::collections::BTreeSet;

/// The hops that are left after a first one.
const MOST_AFTER: u32 = 2_147_483_646;

/// The step from an id to what it is related to by the roles.
#[derive(Drop)]
struct Above<'a, L> {
    alloc: Global,
    schema: &'a SchemaTable,
    look: &'a L,
    roles: &'a [Role],
}

impl<'a, L: Look> Step for Above<'a, L> {
    ghost taken = { λ a n. above a.schema.now a.roles.now n };

    ghost seen = { λ a. L.seen a.look.now };

    fn step(
        &self,
        from: InstId,
        ends: &mut Vec<InstId>,
        reads: &mut Vec<Key>,
    ) -> Result<(), Memory> {
        reads.push(Key::Inst(from))?;
        for role in self.roles {
            push_relating(self.alloc, self.schema, self.look, *role, from, ends, reads)?;
        }
        Ok(())
    }

    ghost stands = { λ a n. inl refl };
}

/// Appends the roles by which an element is a part of another.
fn push_roles(relation: Relation, roles: &mut Vec<Role>) -> Result<(), Memory>
    ensures { OnOk result (roles.new.items ≡ roles.old.items ++ roles_of relation) }
{
    match relation {
        Relation::Any => {
            roles.push(Role::Aggregates)?;
            roles.push(Role::Nests)?;
            roles.push(Role::Contained)?;
            roles.push(Role::Group)?;
            roles.push(Role::Voids)?;
            roles.push(Role::Fills)?;
            Ok(())
        }
        Relation::Aggregates => {
            roles.push(Role::Aggregates)?;
            Ok(())
        }
        Relation::Nests => {
            roles.push(Role::Nests)?;
            Ok(())
        }
        Relation::Contained => {
            roles.push(Role::Contained)?;
            Ok(())
        }
        Relation::Group => {
            roles.push(Role::Group)?;
            Ok(())
        }
        Relation::VoidsFills => {
            roles.push(Role::Voids)?;
            roles.push(Role::Fills)?;
            Ok(())
        }
    }
}

/// The ancestors by the roles.
fn ancestors_by<L: Look>(
    alloc: Global,
    schema: &SchemaTable,
    look: &L,
    roles: &[Role],
    from: InstId,
    reads: &mut Vec<Key>,
) -> Result<BTreeSet<InstId>, Memory>
    ensures { IfOk result (λ r. Reads (ancestors schema.now roles.now from) (L.seen look.now) r.keys reads.old.items reads.new.items) }
{
    let up = Above {
        alloc,
        schema,
        look,
        roles,
    };
    let mut parents = Vec::new(alloc);
    up.step(from, &mut parents, reads)?;
    let all = close(alloc, &up, parents.as_slice(), MOST_AFTER, reads)?;
    Ok(all)
}

/// The ancestors of the id by the relation, ascending, also those that are missing in the model (IDS 1.0,
/// partOf facet); the id itself is one only where it is reached. It appends the keys that it looks at. The
/// one refusal is want of memory; some of these keys may stand in `reads` then.
///
/// It steps from each id once: `O(n log n)` in the number of relationships and of what they lead to.
pub fn ancestors_of<L: Look>(
    alloc: Global,
    schema: &SchemaTable,
    look: &L,
    relation: Relation,
    from: InstId,
    reads: &mut Vec<Key>,
) -> Result<Vec<InstId>, Memory>
    ensures { IfOk result (λ r. Reads (ancestors schema.now (roles_of relation) from) (L.seen look.now) r.items reads.old.items reads.new.items) }
{
    let mut roles = Vec::new(alloc);
    push_roles(relation, &mut roles)?;
    let members = ancestors_by(alloc, schema, look, roles.as_slice(), from, reads)?;
    let ids = in_order(alloc, &members)?;
    Ok(ids)
}
