ghost use Rattle.std.specs.Prelude.{refl};
ghost use Rattle.model_view.specs.Views.{seen_in, SnapshotView};

use crate::snapshot::Snapshot;
use audit_model::Look;
use ifc_base::{InstId, Instance, Role};

impl Look for Snapshot {
    ghost seen = { seen_in };

    ghost model = { λ (v : SnapshotView). v.model };

    fn instance(&self, id: InstId) -> Option<&Instance> {
        Snapshot::instance(self, id)
    }

    fn referrers(&self, id: InstId, role: Role) -> &[InstId] {
        Snapshot::referrers(self, id, role)
    }

    fn holders(&self, id: InstId) -> &[InstId] {
        Snapshot::holders(self, id)
    }

    ghost shown = { λ v id. refl };
}
