//! The instances of a file so far.

ghost use Rattle.std.specs.Prelude.{◌≡◌, ◌==◌, ℕ, false, [], ◌∷◌, ◌++◌, IfOk, OnOk, OnErr};
ghost use Rattle.std.specs.List.{list_any};
ghost use Rattle.ifc_base.specs.Ids.{has_id};
ghost use Rattle.reading.specs.Codes.{codes_of};
ghost use Rattle.reading.specs.Reading.{Yields};
ghost use Rattle.p21_read.specs.Files as spec;
ghost use Rattle.p21_read.specs.Known.{AreKnown};

use crate::fault::P21Cause;
use ifc_base::{Instance, Instances, Memory};
use reading::Stop;
use std::alloc::Global;
use std::collections::BTreeSet;
use std::marker::Model;

/// Instances in the order of their file, each with an id of its own. Contracts see their list.
#[derive(Drop)]
pub(crate) struct Gathered {
    alloc: Global,
    instances: Vec<Instance>,
    /// Whether each id was greater than all before it.
    ascends: bool,
    /// While the ids ascend, the last one, or 0.
    last: u32,
    /// Once they don't, all of them.
    ids: BTreeSet<u32>,
}

impl Model for Gathered {
    ghost use Rattle.std.specs.Prelude.{List};
    ghost use Rattle.ifc_base.specs.declared.value.Instance.{Instance};
    ghost use Rattle.ifc_base.specs.contracts.value.Value as value;
    ghost use Rattle.std.specs.Coded.{codes};
    ghost use Rattle.p21_read.specs.Known.{AreKnown};

    ghost Value = { List Instance };

    ghost coded = { Prim.hlevel (codes, value.the_row.coded) };

    ghost view = { λ gathered. gathered.instances.items };

    ghost invariant = { λ gathered. AreKnown gathered.ascends gathered.last gathered.ids.keys gathered.instances.items };
}

/// The ids of the instances, ordered. `O(n log n)`.
fn ids_of(alloc: Global, instances: &[Instance]) -> Result<BTreeSet<u32>, Memory>
    ensures { IfOk result (λ ids. (n : ℕ) → list_any (◌==◌ n) ids.keys ≡ has_id n instances.now) }
{
    let mut ids = BTreeSet::new(alloc);
    for instance in instances {
        ids.insert(instance.id.get())?;
    }
    Ok(ids)
}

/// Adds the instance that stands at `at` behind the others, none of which has its id, if there may be
/// one more.
#[tactic(auto, unfolding(crate::specs::Files::placed))]
fn push<'a>(
    instances: &mut Vec<Instance>,
    most: u32,
    at: &'a [u8],
    instance: Instance,
) -> Result<(), Stop<'a, P21Cause>>
    requires { has_id instance.id instances.old.items ≡ false }
    ensures added { Yields (λ _. instances.new.items) result (spec.placed most instances.old.items (codes_of at.now) instance) }
    ensures stays { OnErr result (instances.new.items ≡ instances.old.items) }
    ensures more { OnOk result (instances.new.items ≡ instances.old.items ++ instance ∷ []) }
{
    if instances.len() >= most as usize {
        return Err(Stop::Refused(P21Cause::TooManyInstances, at));
    }
    instances.push(instance)?;
    Ok(())
}

/// Adds the instance that stands at `at` behind the others, whose ids are these, if its id is new and
/// there may be one more.
#[tactic(auto, unfolding(crate::specs::Files::placed))]
fn add_among<'a>(
    ids: &mut BTreeSet<u32>,
    instances: &mut Vec<Instance>,
    most: u32,
    at: &'a [u8],
    instance: Instance,
) -> Result<(), Stop<'a, P21Cause>>
    requires { AreKnown false 0 ids.old.keys instances.old.items }
    ensures added { Yields (λ _. instances.new.items) result (spec.placed most instances.old.items (codes_of at.now) instance) }
    ensures known { AreKnown false 0 ids.new.keys instances.new.items }
{
    let number = instance.id.get();
    if ids.contains(&number) {
        return Err(Stop::Refused(P21Cause::IdTwice, at));
    }
    push(instances, most, at, instance)?;
    match ids.insert(number) {
        Ok(_) => Ok(()),
        Err(_) => {
            let _ = instances.pop();
            Err(Stop::Memory)
        }
    }
}

impl Gathered {
    /// No instances.
    pub(crate) fn new(alloc: Global) -> Gathered
        ensures { result ≡ [] }
    {
        Gathered {
            alloc,
            instances: Vec::new(alloc),
            ascends: true,
            last: 0,
            ids: BTreeSet::new(alloc),
        }
    }

    /// Adds the instance that stands at `at`, if its id is new and there may be one more. `O(1)` while
    /// the ids ascend, `O(n log n)` at the first that doesn't, and `O(log n)` from then on.
    pub(crate) fn add<'a>(
        &mut self,
        most: u32,
        at: &'a [u8],
        instance: Instance,
    ) -> Result<(), Stop<'a, P21Cause>>
        ensures { Yields (λ _. self.new) result (spec.placed most self.old (codes_of at.now) instance) }
    {
        let number = instance.id.get();
        if self.ascends && number > self.last {
            push(&mut self.instances, most, at, instance)?;
            self.last = number;
            return Ok(());
        }
        if self.ascends {
            self.ids = ids_of(self.alloc, self.instances.as_slice())?;
            self.ascends = false;
        }
        add_among(&mut self.ids, &mut self.instances, most, at, instance)
    }

    /// The list of the instances. `O(1)`.
    pub(crate) fn into_instances(self) -> Instances
        ensures { result ≡ self }
    {
        Instances::from_vec(self.instances)
    }
}
