use audit_model::Edits;
use dirty_board::Room;
use ifc_base::Keys;
use inverse_index::ChangeLog;
use model_view::Snapshot;
use std::marker::Model;

/// A commit that is accepted and not made yet. It may be dropped, which leaves the core as it is.
#[derive(Drop)]
pub struct Prepared {
    pub(crate) actor: u32,
    pub(crate) base: u32,
    pub(crate) edits: Edits,
    pub(crate) next: Snapshot,
    pub(crate) keys: Keys,
    pub(crate) log: ChangeLog,
    pub(crate) space: Room,
}

impl Model for Prepared {
    ghost use Rattle.std.specs.Coded.{codes, coded_ℕ, coded_list};
    ghost use Rattle.std.specs.FinMap as map;
    ghost use Rattle.std.specs.Ordering.{nat_cmp};
    ghost use Rattle.ifc_base.specs.contracts.value.Value as value;
    ghost use Rattle.audit_core.specs.Commits.{PreparedView};

    ghost Value = { PreparedView };

    ghost coded = { Prim.hlevel (codes, value.the_row.coded, map.code {R = nat_cmp} coded_ℕ (coded_list coded_ℕ), map.code {R = nat_cmp} coded_ℕ coded_ℕ) };

    ghost view = { λ prepared. record {
      actor = prepared.actor;
      base = prepared.base;
      edits = prepared.edits;
      next = prepared.next;
      keys = prepared.keys;
      log = prepared.log;
      space = prepared.space;
    } };
}
