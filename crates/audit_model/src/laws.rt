//! Laws of the definitions. Each function does nothing: its contract is the law.
ghost use Rattle.audit_model.specs.Drain.{DrainFollows, DrainOfFile};
ghost use Rattle.audit_model.specs.FacetLaws.{ClosureLaw, HopLaw, NeedsAreEnough};
ghost use Rattle.audit_model.specs.FacetLaws.{NeedsAreLookedAt, NeedsAscend};
ghost use Rattle.audit_model.specs.FacetLaws.{NeedsCoverVerdict, OthersNotApplicable, OwnHidesTypes};
ghost use Rattle.audit_model.specs.FacetLaws.{PairsAreThere};
ghost use Rattle.audit_model.specs.Laws.{CallsDetermine, CommitsAreNumbered, DanglingIsLeast};
ghost use Rattle.audit_model.specs.Laws.{EarlierModelsStay, LastChangeIsLast};
ghost use Rattle.audit_model.specs.Laws.{ModelsAscend, OneReply, PairsAscend};
ghost use Rattle.audit_model.specs.Laws.{RefusedChangesNothing, SettledByDelivery, SettledIsPair};

/// After a history, an actor's call has at most one reply.
pub fn one_reply()
    ensures { OneReply }
{}

/// The calls of a legal history determine its replies.
pub fn calls_determine()
    ensures { CallsDetermine }
{}

/// The models of a legal history have ascending, distinct ids, given that the first has.
pub fn models_ascend()
    ensures { ModelsAscend }
{}

/// Accepted commits form one order: the replies that accept them name the revisions 1, 2, 3 and so on.
pub fn commits_are_numbered()
    ensures { CommitsAreNumbered }
{}

/// A refused commit leaves revisions, models, settled pairs and claims out as they were.
pub fn refused_changes_nothing()
    ensures { RefusedChangesNothing }
{}

/// A pair that is settled after an entry that isn't an accepted commit was settled before it, or is
/// the delivered one.
pub fn settled_by_delivery()
    ensures { SettledByDelivery }
{}

/// The model of a revision stays as it is, whatever comes later.
pub fn earlier_models_stay()
    ensures { EarlierModelsStay }
{}

/// A settled pair is a pair of the current model.
pub fn settled_is_pair()
    ensures { SettledIsPair }
{}

/// One hop reads the same in two models that agree on what it looks at in the first.
pub fn hop_law()
    ensures { HopLaw }
{}

/// And so does a closure by any steps that do.
pub fn closure_law()
    ensures { ClosureLaw }
{}

/// A need has the keys that are looked at where the pair is assessed, and no other.
pub fn needs_are_looked_at()
    ensures { NeedsAreLookedAt }
{}

/// The keys of a need ascend, so that the first of them with a property is the least with it.
pub fn needs_ascend()
    ensures { NeedsAscend }
{}

/// A property of the element hides those of the same names of its types.
pub fn own_hides_types()
    ensures { OwnHidesTypes }
{}

/// A verdict hangs on the contents of the keys that it needs alone: where two models agree on them,
/// element, verdict and needs are the same.
pub fn needs_are_enough()
    ensures { NeedsAreEnough }
{}

/// So where a commit changes none of them, the element, the verdict and its needs stay.
pub fn needs_cover_verdict()
    ensures { NeedsCoverVerdict }
{}

/// The element of a pair is an instance of the model.
pub fn pairs_are_there()
    ensures { PairsAreThere }
{}

/// A specification isn't applicable to an instance with which it makes no pair.
pub fn others_not_applicable()
    ensures { OthersNotApplicable }
{}

/// After a legal history in which no claim is out, a drain of the unsettled pairs goes on legally,
/// and it is the only one that does.
pub fn drain_follows()
    ensures { DrainFollows }
{}

/// The drain of a file is a legal history, and the only one that is a drain.
pub fn drain_of_file()
    ensures { DrainOfFile }
{}

/// The last change of a key is the last revision whose commit changed it, or 0.
pub fn last_change_is_last()
    ensures { LastChangeIsLast }
{}

/// The pairs of a model ascend by specification and then by element, so that the first of them with
/// a property is the least with it.
pub fn pairs_ascend()
    ensures { PairsAscend }
{}

/// The refusal for a missing reference names the least pair that dangles newly, and there is none
/// exactly where no pair does.
pub fn dangling_is_least()
    ensures { DanglingIsLeast }
{}
