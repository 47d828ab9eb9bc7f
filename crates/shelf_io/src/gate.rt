/// Where a gate is called: outside the lock, before or after a step of its actor.
#[derive(Clone, Copy, Debug, PartialEq, Eq)]
pub enum Point {
    /// An editor is about to commit; the revision is that of the draft's base.
    BeforeCommit,
    /// An editor's commit was accepted; the revision is the new one.
    AfterCommit,
    /// A worker is about to deliver; the revision is that of the claim.
    BeforeDeliver,
    /// A worker's delivery was answered; the revision is that of the claim.
    AfterDeliver,
    /// A worker's claim was answered by nothing to do; the revision is 0.
    AfterIdle,
}

/// Something that may look on and hold an actor up. It promises nothing.
pub trait Gate {
    /// The actor `who` (0 the caller, 1 to 16 the editors, 17 to 32 the workers) has come to this point.
    fn at(&self, who: u32, point: Point, revision: u32);
}

/// A gate that does nothing.
#[derive(Clone, Copy, Debug)]
pub struct FreeGate;

impl Gate for FreeGate {
    fn at(&self, _who: u32, _point: Point, _revision: u32) {}
}
