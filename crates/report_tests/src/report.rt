use audit_model::{Failing, Failings, Occurs, Tally};
use ifc_base::{InstId, Memory, Numbers};
use report_text::{passes, push_decimal, render_report};
use std::alloc::Global;
use std::process::Abort;
use std::test::Fail;

/// Each element with its requirements that aren't met.
type Failed = &'static [(u32, &'static [u32])];

fn failing(alloc: Global, elem: u32, requirements: &[u32]) -> Result<Failing, Memory> {
    Ok(Failing {
        elem: InstId::new(elem).ok_or(Memory)?,
        requirements: Numbers::from_vec(Vec::from_slice(alloc, requirements)?),
    })
}

fn failings(alloc: Global, failed: Failed) -> Result<Failings, Memory> {
    let mut failings = Failings::new(alloc);
    for (elem, requirements) in failed {
        failings
            .push(failing(alloc, *elem, requirements)?)
            .map_err(|back| back.0)?;
    }
    Ok(failings)
}

fn tally(alloc: Global, occurs: Occurs, applicable: u32, failed: Failed) -> Result<Tally, Memory> {
    Ok(Tally {
        skipped: false,
        occurs,
        applicable,
        failing: failings(alloc, failed)?,
    })
}

/// The report of a model with this one specification, at revision 0.
fn expect_report<R: Abort>(rt: &R, alloc: Global, tally: Tally, wanted: &str) -> Result<(), Fail> {
    let tallies = vec![in alloc; tally]?;
    let text = render_report(alloc, 0, &tallies)?;
    assert_eq!(rt; text.as_slice(), wanted.as_bytes());
    Ok(())
}

#[test]
fn a_specification_passes(rt: HostRuntime) -> Result<(), Fail> {
    let rows = [
        (
            Occurs::Optional,
            2,
            "report 0\nspec 1 pass applicable 2 failed 0\nend pass\n",
        ),
        (
            Occurs::Prohibited,
            0,
            "report 0\nspec 1 pass applicable 0 failed 0\nend pass\n",
        ),
        (
            Occurs::Required,
            1,
            "report 0\nspec 1 pass applicable 1 failed 0\nend pass\n",
        ),
    ];
    for (occurs, applicable, wanted) in rows {
        let tally = tally(rt.alloc(), occurs, applicable, &[])?;
        expect_report(&rt, rt.alloc(), tally, wanted)?;
    }
    Ok(())
}

#[test]
fn a_specification_fails(rt: HostRuntime) -> Result<(), Fail> {
    let rows: [(Occurs, u32, Failed, &str); 3] = [
        (
            Occurs::Required,
            0,
            &[],
            "report 0\nspec 1 fail applicable 0 failed 0\nend fail\n",
        ),
        (
            Occurs::Optional,
            2,
            &[(10, &[1]), (11, &[1, 2, 3, 4, 5, 6])],
            "report 0\nspec 1 fail applicable 2 failed 2\nfail #10 1\nfail #11 1 2 3 4 5 6\nend fail\n",
        ),
        (
            Occurs::Prohibited,
            2,
            &[(10, &[]), (11, &[])],
            "report 0\nspec 1 fail applicable 2 failed 2\nfail #10 prohibited\nfail #11 prohibited\nend fail\n",
        ),
    ];
    for (occurs, applicable, failed, wanted) in rows {
        let tally = tally(rt.alloc(), occurs, applicable, failed)?;
        expect_report(&rt, rt.alloc(), tally, wanted)?;
    }
    Ok(())
}

fn skipped(alloc: Global) -> Tally {
    Tally {
        skipped: true,
        occurs: Occurs::Required,
        applicable: 0,
        failing: Failings::new(alloc),
    }
}

#[test]
fn a_skipped_specification_fails_nothing(rt: HostRuntime) -> Result<(), Fail> {
    let tallies = vec![in rt.alloc(); skipped(rt.alloc())]?;
    assert!(rt; passes(&tallies));
    let text = render_report(rt.alloc(), 3, &tallies)?;
    assert_eq!(rt;
        text.as_slice(),
        b"report 3\nspec 1 skipped\nend pass\n".as_slice()
    );
    Ok(())
}

#[test]
fn specifications_go_by_number(rt: HostRuntime) -> Result<(), Fail> {
    let first = tally(rt.alloc(), Occurs::Required, 12, &[(2_147_483_647, &[10])])?;
    let last = tally(rt.alloc(), Occurs::Prohibited, 0, &[])?;
    let tallies = vec![in rt.alloc(); first, skipped(rt.alloc()), last]?;
    assert!(rt; !passes(&tallies));
    let text = render_report(rt.alloc(), 100_000, &tallies)?;
    let wanted =
        "report 100000\nspec 1 fail applicable 12 failed 1\nfail #2147483647 10\nspec 2 skipped\n\
         spec 3 pass applicable 0 failed 0\nend fail\n";
    assert_eq!(rt; text.as_slice(), wanted.as_bytes());
    Ok(())
}

#[test]
fn numbers_have_both_ends(rt: HostRuntime) -> Result<(), Fail> {
    let rows: [(u64, &str); 6] = [
        (0, "#0"),
        (9, "#9"),
        (10, "#10"),
        (105, "#105"),
        (9_999_999_999_999_999_999, "#9999999999999999999"),
        (18_446_744_073_709_551_615, "#18446744073709551615"),
    ];
    for (number, wanted) in rows {
        let mut out = vec![in rt.alloc(); b'#']?;
        push_decimal(&mut out, number)?;
        assert_eq!(rt; out.as_slice(), wanted.as_bytes());
    }
    Ok(())
}
