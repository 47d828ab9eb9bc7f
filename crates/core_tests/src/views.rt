use crate::fixtures::{file, schema};
use audit_model::{Edit, Pair, Verdict};
use ifc_base::{InstId, Key, Keys, Memory, Numbers};
use model_view::{Claim, Draft, Finding, Snapshot};
use std::alloc::Global;
use std::process::Abort;
use std::test::Fail;

/// The snapshot of a wall and a group.
fn snapshot(alloc: Global) -> Result<Snapshot, Fail> {
    let file = file(
        alloc,
        "IFC4",
        "#10=IFCWALL('a',$,'W01',$,$,$,$,$,$);",
        "#11=IFCGROUP('g',$,$,$,$);",
    )?;
    let schema = schema(alloc)?;
    Ok(Snapshot::first(alloc, &schema, file.instances)?)
}

#[test]
fn a_draft_keeps_its_base_and_edits(rt: HostRuntime) -> Result<(), Fail> {
    let ten = InstId::new(10).ok_or(Memory)?;
    let mut draft = Draft::new(rt.alloc(), snapshot(rt.alloc())?);
    draft.push(Edit::Remove(ten)).map_err(|back| back.0)?;
    let (base, edits) = draft.into_parts();
    let draft = Draft::from_parts(base, edits);
    assert_eq!(rt; draft.base().revision(), 0);
    assert_eq!(rt; draft.edits().as_slice(), [Edit::Remove(ten)].as_slice());
    Ok(())
}

#[test]
fn a_finding_gives_its_claim_back(rt: HostRuntime) -> Result<(), Fail> {
    let elem = InstId::new(10).ok_or(Memory)?;
    let keys = Keys::from_vec(vec![in rt.alloc(); Key::Inst(elem)]?);
    let claim = Claim::new(7, Pair { spec: 1, elem }, snapshot(rt.alloc())?);
    let finding = Finding::new(claim, Verdict::NotApplicable, keys);
    assert!(rt; *finding.verdict() == Verdict::NotApplicable);
    assert_eq!(rt; finding.needs().as_slice(), [Key::Inst(elem)].as_slice());
    assert_eq!(rt; finding.claim().pair().elem.get(), 10);
    let claim = finding.into_claim();
    assert_eq!(rt; claim.number(), 7);
    assert_eq!(rt; claim.revision(), 0);
    assert_eq!(rt; claim.snapshot().len(), 2);
    let finding = Finding::new(
        claim,
        Verdict::Applicable(Numbers::new(rt.alloc())),
        Keys::new(rt.alloc()),
    );
    let (claim, verdict, needs) = finding.into_parts();
    claim.end();
    assert!(rt; verdict != Verdict::NotApplicable);
    assert_eq!(rt; needs.as_slice().len(), 0);
    Ok(())
}
