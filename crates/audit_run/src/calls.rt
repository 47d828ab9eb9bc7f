ghost use Rattle.std.specs.Prelude.{◌≡◌, [], ◌∷◌, ◌++◌, List, ℕ, map};
ghost use Rattle.audit_model.specs.declared.step.Call.TheVariants as call;
ghost use Rattle.audit_model.specs.Machine.{Legal};
ghost use Rattle.audit_model.specs.Specifications.{AreSpecifications};
ghost use Rattle.audit_run.specs.Acts.{DoAll, Does};
ghost use Rattle.audit_run.specs.Holding.{AreTaken, IsTaken};
ghost use Rattle.audit_run.specs.Runs.{return_of, IsHolding, IsPlay, IsPlayed, reports};

use crate::hands::{Begun, Hands, Taken, end_draft, take_base, take_claim};
use audit_core::Core;
use audit_model::{Edits, ReportText};
use model_view::{Assess, Claimed, Draft, Published};
use std::alloc::Global;

/// What an actor is to do.
#[derive(Drop)]
pub enum Act {
    /// Begins a draft, in place of the one that it has.
    Begin,
    /// Commits these edits, drafted where its draft was begun. Without a draft it does nothing.
    Commit(Edits),
    /// Claims a pair, and holds it.
    Take,
    /// Evaluates the first pair that it holds and delivers what was found, or gives the pair back where
    /// memory is wanting. Without a pair it does nothing.
    Give,
    /// Gives the first pair that it holds back. Without a pair it does nothing.
    Return,
    /// Publishes.
    Publish,
}

/// An act and its actor.
#[derive(Drop)]
pub struct Asked {
    pub actor: u32,
    pub act: Act,
}

/// Begins a draft.
fn begin(core: &mut Core, hands: &mut Hands, actor: u32)
    requires { IsHolding core.old hands.old }
    ensures play { IsPlayed core.old core.new hands.new (record { actor = actor; act = Act.Begin }) [] }
    ensures acts { Does core.old.ground actor Act.Begin core.old.history hands.old core.new.history hands.new }
{
    if hands.drafts.reserve(1).is_err() {
        return;
    }
    if let Ok(base) = core.begin(actor) {
        end_draft(&mut hands.drafts, actor);
        hands.drafts.push_reserved(Begun { actor, base });
    }
}

/// Commits these edits on the actor's draft, if it has one.
fn commit(alloc: Global, core: &mut Core, hands: &mut Hands, actor: u32, edits: Edits)
    requires { IsHolding core.old hands.old }
    ensures play { IsPlayed core.old core.new hands.new (record { actor = actor; act = Act.Commit edits }) [] }
    ensures acts { Does core.old.ground actor (Act.Commit edits) core.old.history hands.old core.new.history hands.new }
{
    let Some(base) = take_base(&mut hands.drafts, actor) else {
        return;
    };
    match core.prepare(alloc, actor, Draft::from_parts(base, edits)) {
        Ok(prepared) => {
            core.finish(prepared);
        }
        Err(_) => {}
    }
}

/// Claims a pair.
fn take(core: &mut Core, hands: &mut Hands, actor: u32)
    requires { IsHolding core.old hands.old }
    ensures play { IsPlayed core.old core.new hands.new (record { actor = actor; act = Act.Take }) [] }
    ensures acts { Does core.old.ground actor Act.Take core.old.history hands.old core.new.history hands.new }
{
    if hands.claims.reserve(1).is_err() {
        return;
    }
    match core.claim(actor) {
        Ok(Claimed::Pair(claim)) => hands.claims.push_reserved(Taken { actor, claim }),
        Ok(Claimed::Idle) => {}
        Err(_) => {}
    }
}

/// Evaluates the first claim of the actor, if it has one, and delivers what was found.
fn give<E: Assess>(alloc: Global, core: &mut Core, evaluator: &E, hands: &mut Hands, actor: u32)
    requires holding { IsHolding core.old hands.old }
    requires schema { E.schema evaluator.now ≡ core.old.ground.schema }
    requires specs { E.specs evaluator.now ≡ core.old.ground.specs }
    requires specifications { AreSpecifications (E.specs evaluator.now) }
    ensures play { IsPlayed core.old core.new hands.new (record { actor = actor; act = Act.Give }) [] }
    ensures acts { Does core.old.ground actor Act.Give core.old.history hands.old core.new.history hands.new }
{
    let Some(claim) = take_claim(&mut hands.claims, actor) else {
        return;
    };
    match evaluator.assess(alloc, claim) {
        Ok(finding) => match core.deliver(actor, finding) {
            Ok(_) => {}
            Err((_, finding)) => core.give_back(actor, finding.into_claim()),
        },
        Err((_, claim)) => core.give_back(actor, claim),
    }
}

/// Gives the first claim of the actor back, if it has one.
fn give_back(core: &mut Core, hands: &mut Hands, actor: u32)
    requires { IsHolding core.old hands.old }
    ensures play { IsPlayed core.old core.new hands.new (record { actor = actor; act = Act.Return }) [] }
    ensures acts { Does core.old.ground actor Act.Return core.old.history hands.old core.new.history hands.new }
{
    match take_claim(&mut hands.claims, actor) {
        Some(claim) => core.give_back(actor, claim),
        None => {}
    }
}

/// Publishes, and adds the text of a report to these.
fn publish(alloc: Global, core: &mut Core, hands: &Hands, actor: u32, texts: &mut Vec<ReportText>)
    requires { IsHolding core.old hands.now }
    ensures play { (told : List (List ℕ)) × ((texts.new.items ≡ texts.old.items ++ told)
        × IsPlayed core.old core.new hands.now (record { actor = actor; act = Act.Publish }) told) }
    ensures acts { Does core.old.ground actor Act.Publish core.old.history hands.now core.new.history hands.now }
{
    if texts.reserve(1).is_err() {
        return;
    }
    match core.publish(alloc, actor) {
        Ok(Published::Report { revision: _, text }) => texts.push_reserved(text),
        Ok(Published::Pending(_)) => {}
        Err(_) => {}
    }
}

/// Makes one call.
fn step<E: Assess>(
    alloc: Global,
    core: &mut Core,
    evaluator: &E,
    hands: &mut Hands,
    asked: Asked,
    texts: &mut Vec<ReportText>,
)
    requires holding { IsHolding core.old hands.old }
    requires schema { E.schema evaluator.now ≡ core.old.ground.schema }
    requires specs { E.specs evaluator.now ≡ core.old.ground.specs }
    requires specifications { AreSpecifications (E.specs evaluator.now) }
    ensures play { (told : List (List ℕ)) × ((texts.new.items ≡ texts.old.items ++ told)
        × IsPlayed core.old core.new hands.new asked told) }
    ensures acts { Does core.old.ground asked.actor asked.act core.old.history hands.old core.new.history hands.new }
{
    let Asked { actor, act } = asked;
    match act {
        Act::Begin => begin(core, hands, actor),
        Act::Commit(edits) => commit(alloc, core, hands, actor, edits),
        Act::Take => take(core, hands, actor),
        Act::Give => give(alloc, core, evaluator, hands, actor),
        Act::Return => give_back(core, hands, actor),
        Act::Publish => publish(alloc, core, hands, actor, texts),
    }
}

/// Makes the calls in turn, and answers the texts of the reports that were published. A call for which
/// there is no room in the journal, or for which memory is wanting, adds no entry, and the run goes on.
///
/// The hands have to be of this core, and stay so. The journal is legal throughout, so that each reply
/// is the one that the entries before it determine; its new entries are those of the calls, in their
/// order and at most one for each; and the texts are, report by report and byte for byte, the audits
/// from scratch of the revisions that the new entries name. `Give` and `Return` add an entry wherever
/// their actor holds a claim, the first of which then ends.
pub fn run<E: Assess>(
    alloc: Global,
    core: &mut Core,
    evaluator: &E,
    hands: &mut Hands,
    calls: Vec<Asked>,
) -> Vec<ReportText>
    requires holding { IsHolding core.old hands.old }
    requires schema { E.schema evaluator.now ≡ core.old.ground.schema }
    requires specs { E.specs evaluator.now ≡ core.old.ground.specs }
    requires specifications { AreSpecifications (E.specs evaluator.now) }
    ensures play { IsPlay core.old core.new hands.new calls.items result.items }
    ensures acts { DoAll core.old.ground calls.items core.old.history hands.old core.new.history hands.new }
{
    let mut texts = Vec::new(alloc);
    for asked in calls {
        step(alloc, core, evaluator, hands, asked, &mut texts);
    }
    texts
}

/// Gives all claims back that the hands hold, each by its actor and the last one first. It takes no
/// memory. `O(h * (c + log n))` for `h` claims in the hands, `c` that are out and `n` pairs.
pub fn give_all_back(core: &mut Core, hands: Hands)
    requires { IsHolding core.old hands }
    ensures ground { core.new.ground ≡ core.old.ground }
    ensures returned { core.new.history ≡ map return_of hands.claims ++ core.old.history }
    ensures legal { Legal core.new.ground core.new.history }
{
    let Hands {
        drafts: _drafts,
        claims,
    } = hands;
    let mut claims = claims;
    while let Some(taken) = claims.pop() {
        let Taken { actor, claim } = taken;
        core.give_back(actor, claim);
    }
    claims.destroy_empty();
}
