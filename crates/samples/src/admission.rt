// Whether a draft passes, and its admission.
use crate::answers::{adds, times_are, verdict_is};
use crate::build::{drafted, overloaded, record, sample, task};
use analysis::admitted::AdmittedPlan;
use server::polling::Polling;
use std::process::Abort;
use std::test::Fail;

fn passes<const N: usize>(
    rt: &impl Abort,
    records: [[u8; 20]; N],
    expected: Result<(), (u32, u32)>,
) -> Result<(), Fail> {
    verdict_is(rt, drafted::<Polling, N>(records)?.check(), expected);
    Ok(())
}

#[test]
fn the_first_line_that_does_not_pass_is_named(rt: HostRuntime) -> Result<(), Fail> {
    let (above, below) = (task(2, 10), task(9, 10));
    passes(&rt, [], Ok(()))?;
    passes(&rt, sample(b'P'), Ok(()))?;
    passes(&rt, overloaded(), Err((18, 3)))?;
    passes(
        &rt,
        [above, record(b'T', [3, 10, 5, 0]), below],
        Err((18, 3)),
    )?;
    passes(
        &rt,
        [above, record(b'T', [3, 10, 4, 0]), below],
        Err((18, 2)),
    )?;
    passes(&rt, [above, record(b'T', [3, 10, 4, 0])], Err((18, 2)))
}

// An admitted plan with the lines of the sample.
fn admitted(rt: &impl Abort) -> Result<AdmittedPlan<Polling>, Fail> {
    let mut plan = AdmittedPlan::new();
    assert_eq!(rt; plan.len(), 0);
    let mut draft = drafted(sample(b'P'))?;
    verdict_is(rt, plan.admit(&mut draft), Ok(()));
    times_are(rt, &draft, Ok(0), [77]);
    Ok(plan)
}

#[test]
fn an_admitted_plan_is_reopened(rt: HostRuntime) -> Result<(), Fail> {
    let plan = admitted(&rt)?;
    assert_eq!(rt; plan.len(), 3);
    let mut draft = plan.reopen();
    times_are(&rt, &draft, Ok(3), [1, 3, 7, 77]);
    adds(&rt, &mut draft, task(1, 24), Ok(4));
    Ok(())
}

#[test]
fn a_refused_admission_changes_nothing(rt: HostRuntime) -> Result<(), Fail> {
    let mut plan = admitted(&rt)?;
    let [first, second, third] = overloaded();
    let mut draft = drafted([first, second, third, task(6, 6)])?;
    verdict_is(&rt, plan.admit(&mut draft), Err((18, 3)));
    times_are(&rt, &draft, Ok(4), [1, 3, 0, 0]);
    assert_eq!(rt; plan.len(), 3);
    times_are(&rt, &plan.reopen(), Ok(3), [1, 3, 7, 77]);
    Ok(())
}

#[test]
fn an_admission_replaces_the_lines(rt: HostRuntime) -> Result<(), Fail> {
    let mut plan = admitted(&rt)?;
    let mut draft = drafted([task(2, 8)])?;
    verdict_is(&rt, plan.admit(&mut draft), Ok(()));
    assert_eq!(rt; draft.len(), 0);
    times_are(&rt, &plan.reopen(), Ok(1), [2, 77, 77, 77]);
    Ok(())
}
