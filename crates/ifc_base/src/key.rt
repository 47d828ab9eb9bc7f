ghost use Rattle.std.specs.Prelude.{◌≡◌, ◌+◌, ◌≤◌, ◌↔◌, IsTrue};
ghost use Rattle.std.proofs.Common.{rules};
ghost use Rattle.std.specs.Cmp.{partial_order_from_own_ties, partial_equiv_from_equiv};
ghost use Rattle.std.specs.Cmp.Rules.{comparing};
ghost use Rattle.std.specs.Ordering.{as_partial_cmp};
ghost use Rattle.ifc_base.specs.KeyOrder.{key_id, key_rank, role_rank, key_cmp, key_eq, key_ties};

use crate::id::InstId;
use crate::list::{Listed, TryCopy};
use crate::memory::Memory;
use std::alloc::Global;
use std::cmp::Ordering;

/// By which relationship entity, and by which of its attributes, an instance is referred to
/// (ISO 16739-1, IFC4). The roles are ordered as they stand here.
#[derive(Clone, Copy, Debug, PartialEq, Eq, PartialOrd, Ord)]
pub enum Role {
    /// `RelatedObjects` of IFCRELDEFINESBYPROPERTIES.
    Properties,
    /// `RelatedObjects` of IFCRELDEFINESBYTYPE.
    Kind,
    /// `RelatedObjects` of IFCRELASSOCIATESCLASSIFICATION.
    Classification,
    /// `RelatedObjects` of IFCRELASSOCIATESMATERIAL.
    Material,
    /// `RelatedObjects` of IFCRELAGGREGATES.
    Aggregates,
    /// `RelatedObjects` of IFCRELNESTS.
    Nests,
    /// `RelatedElements` of IFCRELCONTAINEDINSPATIALSTRUCTURE.
    Contained,
    /// `RelatedObjects` of IFCRELASSIGNSTOGROUP.
    Group,
    /// `RelatedOpeningElement` of IFCRELVOIDSELEMENT.
    Voids,
    /// `RelatedBuildingElement` of IFCRELFILLSELEMENT.
    Fills,
}

/// A part of a model that an evaluation can need, and that a commit can change.
///
/// Keys are ordered by id, then the instance itself, then the roles in their order. `==` is equality.
#[derive(Clone, Copy, Debug)]
pub enum Key {
    /// The instance with this id, or that there is none.
    Inst(InstId),
    /// The ids of the instances that refer to this id in this role.
    Refs(InstId, Role),
}

/// Keys in some order, which is that of their maker.
pub type Keys = Listed<Key>;

impl Role {
    /// The number of the role in their order, 1 to 10. `O(1)`.
    pub fn number(self) -> u8
        ensures value { result ≡ role_rank self + 1 }
        ensures room { result ≤ 10 }
    {
        self as u8 + 1
    }
}

impl Key {
    /// The id that the key speaks of, whichever kind it is. `O(1)`.
    fn id(self) -> InstId
        ensures { result ≡ key_id self }
    {
        match self {
            Key::Inst(id) => id,
            Key::Refs(id, _) => id,
        }
    }

    /// The place among the keys of one id, from 0: the instance itself, then the roles. `O(1)`.
    fn rank(self) -> u8
        ensures { result ≡ key_rank self }
    {
        match self {
            Key::Inst(_) => 0,
            Key::Refs(_, role) => role.number(),
        }
    }
}

/// Equality of kind, id and role. `O(1)`.
impl PartialEq for Key {
    ghost eq = { key_eq };

    ghost laws = { partial_equiv_from_equiv (Prim.search (comparing, rules)) };

    fn eq(&self, other: &Key) -> bool
        ensures same { IsTrue result ↔ (self.now ≡ other.now) }
        ensures eq { result ≡ key_eq self.now other.now }
    {
        self.id().get() == other.id().get() && self.rank() == other.rank()
    }
}

impl Eq for Key {
    ghost laws = { Prim.search (comparing, rules) };
}

impl PartialOrd for Key {
    ghost partial_cmp = { as_partial_cmp key_cmp };

    ghost laws = { partial_order_from_own_ties (Prim.search (comparing, rules)) key_ties };

    fn partial_cmp(&self, other: &Key) -> Option<Ordering> {
        Some(self.cmp(other))
    }
}

/// By id, then the instance itself, then the roles in their order. `O(1)`.
impl Ord for Key {
    ghost cmp = { key_cmp };

    ghost total = { Prim.search (comparing, rules) };

    ghost matches_partial_cmp = { Prim.search (comparing, rules) };

    ghost matches_eq = { key_ties };

    fn cmp(&self, other: &Key) -> Ordering {
        let by_id = self.id().get().cmp(&other.id().get());
        let by_rank = self.rank().cmp(&other.rank());
        by_id.then(by_rank)
    }
}

impl TryCopy for Key {
    fn copy(&self, _alloc: Global) -> Result<Key, Memory> {
        Ok(*self)
    }
}
