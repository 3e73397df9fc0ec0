// Whole plans: how they are refused, and the numbers that are written.
use crate::answers::{Place, plan_times_are, times_are, told};
use crate::build::{overloaded, record, repeated, sample, server, task};
use crate::faults::{several, single};
use report::whole::read_plan;
use server::polling::Polling;
use server::sporadic::Sporadic;
use std::alloc::Global;
use std::process::Abort;
use std::test::Fail;

// A plan of these records is refused there, and no number is written.
fn refused(rt: &impl Abort, heap: Global, records: &[[u8; 20]], place: Place) -> Result<(), Fail> {
    plan_times_are(rt, records.concat(heap)?.as_slice(), Err(place), [77; 20]);
    Ok(())
}

#[test]
fn the_first_faulty_record_is_named(rt: HostRuntime) -> Result<(), Fail> {
    let (first, second) = (task(1, 4), server(b'S', 2, 8));
    let late = record(b'T', [3, 8, 8, 8]);
    for (bytes, (number, byte)) in single() {
        refused(&rt, rt.alloc(), &[first, second, bytes], (number, 3, byte))?;
        refused(&rt, rt.alloc(), &[first, late, bytes], (6, 2, 16))?;
    }
    for (bytes, (number, byte)) in several() {
        refused(&rt, rt.alloc(), &[bytes, late], (number, 1, byte))?;
    }
    Ok(())
}

#[test]
fn all_servers_have_the_letter_of_the_first(rt: HostRuntime) -> Result<(), Fail> {
    let heap = rt.alloc();
    let t = task(1, 40);
    let [p, d, s] = [
        server(b'P', 1, 40),
        server(b'D', 1, 40),
        server(b'S', 1, 40),
    ];
    refused(&rt, heap, &[p, d], (13, 2, 0))?;
    refused(&rt, heap, &[d, t, s], (13, 3, 0))?;
    refused(&rt, heap, &[t, s, s, p], (13, 4, 0))?;
    refused(&rt, heap, &[p, record(b'D', [1, 40, 0, 1])], (6, 2, 16))?;
    refused(&rt, heap, &[d, d, d, d, d], (12, 5, 0))?;
    refused(&rt, heap, &[d, d, d, d, t, p], (12, 6, 0))
}

#[test]
fn a_plan_has_whole_records(rt: HostRuntime) {
    let bytes = record(b'X', [0, 0, 0, 0]);
    plan_times_are(&rt, &repeated::<19>(bytes), Err((1, 0, 0)), [77]);
    plan_times_are(&rt, &repeated::<30>(task(1, 4)), Err((1, 0, 0)), [77]);
    plan_times_are(&rt, &repeated::<441>(task(1, 4)), Err((1, 0, 0)), [77]);
}

#[test]
fn the_memory_comes_last(rt: HostRuntime) -> Result<(), Fail> {
    let plan = overloaded().concat(rt.alloc())?;
    let plan = plan.as_slice();
    plan_times_are(&rt, plan, Err((9, 0, 0)), [77, 77]);
    plan_times_are(&rt, plan, Ok(3), [1, 3, 0]);
    plan_times_are(&rt, plan, Ok(3), [1, 3, 0, 77, 77]);
    plan_times_are(&rt, &[], Ok(0), [77]);
    plan_times_are(&rt, &repeated::<420>(task(1, 40)), Err((11, 21, 0)), [77]);
    Ok(())
}

#[test]
fn a_plan_is_read_for_one_kind(rt: HostRuntime) -> Result<(), Fail> {
    let plan = sample(b'S').concat(rt.alloc())?;
    let draft = told(read_plan::<Sporadic>(plan.as_slice()))?;
    times_are(&rt, &draft, Ok(3), [1, 3, 7, 77]);
    let answer = told(read_plan::<Polling>(plan.as_slice()));
    assert_eq!(rt; answer.err(), Some((13, 2, 0)));
    Ok(())
}
