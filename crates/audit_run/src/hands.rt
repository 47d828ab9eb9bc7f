ghost use Rattle.std.specs.Prelude.{◌≡◌, ◌≤◌, [], vec_len, vec_capacity};
ghost use Rattle.std.specs.List.{position};
ghost use Rattle.std.specs.Option.{option_map};
ghost use Rattle.audit_run.specs.Holding.{begun_on, draft_of, drafted_by, other_drafts};
ghost use Rattle.audit_run.specs.Holding.{taken_as, claim_of, taken_by, other_claims};

use model_view::{Claim, Snapshot};
use std::alloc::Global;
use std::marker::Model;

/// The snapshot on which an actor's draft was begun.
#[derive(Drop)]
pub struct Begun {
    pub actor: u32,
    pub base: Snapshot,
}

/// A claim that an actor has taken. It must be spent.
pub struct Taken {
    pub actor: u32,
    pub claim: Claim,
}

/// What actors hold between their calls. Hands must be spent: they end by giving their claims back.
pub struct Hands {
    pub(crate) drafts: Vec<Begun>,
    pub(crate) claims: Vec<Taken>,
}

impl Model for Hands {
    ghost use Rattle.std.specs.Coded.{codes, coded_ℕ, coded_list};
    ghost use Rattle.std.specs.FinMap as map;
    ghost use Rattle.std.specs.Ordering.{nat_cmp};
    ghost use Rattle.ifc_base.specs.contracts.value.Value as value;
    ghost use Rattle.audit_run.specs.Holding.{HandsView};

    ghost Value = { HandsView };

    ghost coded = { Prim.hlevel (codes, value.the_row.coded, map.code {R = nat_cmp} coded_ℕ (coded_list coded_ℕ)) };

    ghost view = { λ hands. record { drafts = hands.drafts.items; claims = hands.claims.items } };
}

impl Hands {
    /// Hands that hold nothing.
    pub fn new(alloc: Global) -> Hands
        ensures { result ≡ record { drafts = []; claims = [] } }
    {
        Hands {
            drafts: Vec::new(alloc),
            claims: Vec::new(alloc),
        }
    }
}

/// The place of the actor's first draft.
fn draft_place(drafts: &[Begun], actor: u32) -> Option<usize>
    ensures { result ≡ position (drafted_by actor) drafts.now }
{
    drafts.iter().position(|begun| begun.actor == actor)
}

/// The place of the actor's first claim.
fn claim_place(claims: &[Taken], actor: u32) -> Option<usize>
    ensures { result ≡ position (taken_by actor) claims.now }
{
    claims.iter().position(|taken| taken.actor == actor)
}

/// Takes out the first draft of the actor.
pub fn take_base(drafts: &mut Vec<Begun>, actor: u32) -> Option<Snapshot>
    ensures first { option_map (begun_on actor) result ≡ draft_of actor drafts.old.items }
    ensures others { drafts.new.items ≡ other_drafts actor drafts.old.items }
    ensures fewer { vec_len drafts.new ≤ vec_len drafts.old }
    ensures capacity { vec_capacity drafts.new ≡ vec_capacity drafts.old }
{
    let place = draft_place(drafts, actor)?;
    let Begun { actor: _, base } = drafts.remove(place);
    Some(base)
}

/// Ends the first draft of the actor, if it has one.
pub fn end_draft(drafts: &mut Vec<Begun>, actor: u32)
    ensures others { drafts.new.items ≡ other_drafts actor drafts.old.items }
    ensures fewer { vec_len drafts.new ≤ vec_len drafts.old }
    ensures capacity { vec_capacity drafts.new ≡ vec_capacity drafts.old }
{
    let _ended = take_base(drafts, actor);
}

/// Takes out the first claim of the actor.
pub fn take_claim(claims: &mut Vec<Taken>, actor: u32) -> Option<Claim>
    ensures first { option_map (taken_as actor) result ≡ claim_of actor claims.old.items }
    ensures others { claims.new.items ≡ other_claims actor claims.old.items }
{
    let place = claim_place(claims, actor)?;
    let Taken { actor: _, claim } = claims.remove(place);
    Some(claim)
}
