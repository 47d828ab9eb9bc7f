ghost use Rattle.std.specs.Prelude.{◌≡◌, ℕ, List};
ghost use Rattle.std.specs.Option.{option_copied};
ghost use Rattle.ifc_base.specs.declared.value.Instance.{Instance};
ghost use Rattle.audit_model.specs.Keys.{Sight, holders};
ghost use Rattle.audit_model.specs.Models.{instance_at};

use ifc_base::{InstId, Instance, Role};

/// What can be looked at in one model under one schema. Contracts see the model, and the contents of its
/// keys.
pub trait Look {
    ghost seen: { Self → Sight };

    ghost model: { Self → List Instance };

    /// The instance with this id, or none.
    fn instance(&self, id: InstId) -> Option<&Instance>
        ensures { option_copied result ≡ (seen self.now).instance id };

    /// The ascending ids of the instances that refer to the id by the role. There need be no instance of
    /// that id.
    fn referrers(&self, id: InstId, role: Role) -> &[InstId]
        ensures { result.now ≡ (seen self.now).referrers id role };

    /// The ascending ids of the instances that hold a reference to the id, anywhere within their
    /// parameters.
    fn holders(&self, id: InstId) -> &[InstId]
        ensures { result.now ≡ holders (model self.now) id };

    /// The instance that is seen is that of the model.
    ghost shown: { (look : Self) (id : ℕ) → (seen look).instance id ≡ instance_at id (model look) };
}
