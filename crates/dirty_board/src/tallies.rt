ghost use Rattle.std.specs.Prelude.{◌≡◌, ◌+◌, ◌<◌, ◌≤◌, Bool, true, false, [], None, Some, length, map, IfOk, OnOk, OnErr, IfSome};
ghost use Rattle.audit_model.specs.Scratch.{applies, failing_of};
ghost use Rattle.dirty_board.specs.Tallying.{empty_tally, is_failure, recounted, retold, with_tally, AllRising, AreRising};

use crate::failing::{forget, put};
use crate::rows::Kept;
use audit_model::{Failing, Failings, Occurs, Pair, Specification, Tally, Verdict};
use ifc_base::{InstId, Memory, Numbers, TryCopy};
use std::alloc::Global;
use std::marker::Model;
use std::mem;

/// The tallies of the specifications, by number from 1. Contracts see them.
#[derive(Drop)]
pub struct Tallies {
    tallies: Vec<Tally>,
    alloc: Global,
}

impl Model for Tallies {
    ghost use Rattle.std.specs.Prelude.{List};
    ghost use Rattle.audit_model.specs.declared.report.Tally.{Tally};

    ghost Value = { List Tally };

    ghost view = { λ tallies. tallies.tallies.items };
}

/// Whether the specification applies, by the verdict.
pub fn applies(verdict: &Verdict) -> bool
    ensures { result ≡ applies verdict.now }
{
    match verdict {
        Verdict::NotApplicable => false,
        Verdict::Applicable(_) => true,
    }
}

/// Whether an element to which a specification applies fails it, where these requirements aren't met.
fn is_failure(occurs: Occurs, numbers: &[u32]) -> bool
    ensures { result ≡ is_failure occurs numbers.now }
{
    match occurs {
        Occurs::Prohibited => true,
        Occurs::Required => !numbers.is_empty(),
        Occurs::Optional => !numbers.is_empty(),
    }
}

/// The element, if it fails by the verdict.
fn failing_by(
    alloc: Global,
    occurs: Occurs,
    elem: InstId,
    verdict: &Verdict,
) -> Result<Option<Failing>, Memory>
    ensures { IfOk result (λ failing. failing ≡ failing_of occurs elem verdict.now) }
{
    let Verdict::Applicable(numbers) = verdict else {
        return Ok(None);
    };
    if !is_failure(occurs, numbers.as_slice()) {
        return Ok(None);
    }
    let requirements = numbers.copy(alloc)?;
    Ok(Some(Failing { elem, requirements }))
}

/// How many elements count, where one did or didn't and now does or doesn't. A count past that of a
/// `u32`, which ids don't reach, is refused.
fn recounted(count: u32, was: bool, now: bool) -> Result<u32, Memory>
    ensures { IfOk result (λ n. n ≡ recounted was now count) }
{
    match (was, now) {
        (true, true) => Ok(count),
        (true, false) => Ok(count.saturating_sub(1)),
        (false, true) => match count.checked_add(1) {
            Some(more) => Ok(more),
            None => Err(Memory),
        },
        (false, false) => Ok(count),
    }
}

/// Puts what is kept of the element now into the tally, where it counted or didn't. For want of memory
/// the tally stays. `O(log n)` in the number of failing elements, and a move of those behind it.
fn retell(
    alloc: Global,
    tally: &mut Tally,
    elem: InstId,
    was: bool,
    kept: &Kept,
) -> Result<(), Memory>
    requires { AreRising tally.old.failing }
    ensures done { OnOk result (tally.new ≡ retold elem was (Some kept.now) tally.old) }
    ensures stays { OnErr result (tally.new ≡ tally.old) }
{
    if tally.skipped {
        return Ok(());
    }
    let count = recounted(tally.applicable, was, applies(&kept.verdict))?;
    let failed = failing_by(alloc, tally.occurs, elem, &kept.verdict)?;
    let mut failing = mem::replace(&mut tally.failing, Failings::new(alloc)).into_vec();
    match failing.reserve(1) {
        Err(_) => {
            tally.failing = Failings::from_vec(failing);
            Err(Memory)
        }
        Ok(()) => {
            put(&mut failing, elem, failed);
            tally.failing = Failings::from_vec(failing);
            tally.applicable = count;
            Ok(())
        }
    }
}

/// Takes what was kept of the element out of the tally. It takes no memory.
fn untell(alloc: Global, tally: &mut Tally, elem: InstId, was: bool)
    requires { AreRising tally.old.failing }
    ensures { tally.new ≡ retold elem was None tally.old }
{
    if tally.skipped {
        return;
    }
    let mut failing = mem::replace(&mut tally.failing, Failings::new(alloc)).into_vec();
    let _ = forget(&mut failing, elem);
    tally.failing = Failings::from_vec(failing);
    if was {
        tally.applicable = tally.applicable.saturating_sub(1);
    }
}

impl Tallies {
    /// The tally of each of these specifications where nothing is found. `O(n)` in their number.
    pub fn new(alloc: Global, specs: &[Specification]) -> Result<Tallies, Memory>
        ensures { IfOk result (λ tallies. tallies ≡ map empty_tally specs.now) }
    {
        let mut tallies = Vec::new(alloc);
        for spec in specs {
            tallies.push(Tally {
                skipped: !spec.for_model,
                occurs: spec.occurs,
                applicable: 0,
                failing: Failings::new(alloc),
            })?;
        }
        Ok(Tallies { tallies, alloc })
    }

    /// The tallies. `O(1)`.
    pub fn as_slice(&self) -> &[Tally]
        ensures { result.now ≡ self.now }
    {
        self.tallies.as_slice()
    }

    /// Puts what is kept of the pair now into its tally, where it counted or didn't. For want of memory
    /// the tallies stay. `O(log n)` in the number of failing elements, and a move of those behind it.
    pub fn take_in(&mut self, pair: &Pair, was: bool, kept: &Kept) -> Result<(), Memory>
        requires { AllRising self.old }
        ensures done { OnOk result (self.new ≡ with_tally pair.now.spec (retold pair.now.elem was (Some kept.now)) 1 self.old) }
        ensures stays { OnErr result (self.new ≡ self.old) }
    {
        let number = pair.spec as usize;
        if number == 0 {
            return Ok(());
        }
        if number > self.tallies.len() {
            return Ok(());
        }
        let place = number - 1;
        retell(self.alloc, &mut self.tallies[place], pair.elem, was, kept)?;
        Ok(())
    }

    /// Takes what was kept of the pair out of its tally, where it counted or didn't. It takes no memory.
    /// `O(log n)` in the number of failing elements, and a move of those behind it.
    pub fn take_back(&mut self, pair: &Pair, was: bool)
        requires { AllRising self.old }
        ensures { self.new ≡ with_tally pair.now.spec (retold pair.now.elem was None) 1 self.old }
    {
        let number = pair.spec as usize;
        if number == 0 {
            return;
        }
        if number > self.tallies.len() {
            return;
        }
        let place = number - 1;
        untell(self.alloc, &mut self.tallies[place], pair.elem, was);
    }
}
