// The text that is shown of a whole plan.
use crate::build::{overloaded, record, repeated, sample, server, task};
use report::shown::times_text;
use std::alloc::Global;
use std::process::Abort;
use std::str::from_utf8;
use std::test::Fail;

pub(crate) fn shows(rt: &impl Abort, plan: &[u8], text: &str) -> Result<(), Fail> {
    let shown = times_text(plan);
    assert_eq!(rt; from_utf8(shown.as_bytes())?, text);
    Ok(())
}

pub(crate) fn lines_show(
    rt: &impl Abort,
    heap: Global,
    records: &[[u8; 20]],
    text: &str,
) -> Result<(), Fail> {
    shows(rt, records.concat(heap)?.as_slice(), text)
}

#[test]
fn a_plan_that_passes(rt: HostRuntime) -> Result<(), Fail> {
    let heap = rt.alloc();
    lines_show(&rt, heap, &[], "passes\n")?;
    lines_show(&rt, heap, &sample(b'S'), "1 T 1\n2 S 3\n3 T 7\npasses\n")?;
    lines_show(&rt, heap, &sample(b'P'), "1 T 1\n2 P 3\n3 T 7\npasses\n")?;
    lines_show(&rt, heap, &sample(b'D'), "1 T 1\n2 D 3\n3 T 10\npasses\n")?;
    let lines = [task(1, 4), server(b'P', 1, 5), task(2, 6)];
    lines_show(&rt, heap, &lines, "1 T 1\n2 P 2\n3 T 4\npasses\n")
}

#[test]
fn a_plan_that_does_not_pass(rt: HostRuntime) -> Result<(), Fail> {
    let heap = rt.alloc();
    lines_show(&rt, heap, &overloaded(), "1 T 1\n2 P 3\n3 T -\nfails 3\n")?;
    let [first, second, _] = sample(b'S');
    let lines = [first, second, record(b'T', [3, 12, 7, 0])];
    lines_show(&rt, heap, &lines, "1 T 1\n2 S 3\n3 T 7\npasses\n")?;
    let lines = [first, second, record(b'T', [3, 12, 6, 0])];
    lines_show(&rt, heap, &lines, "1 T 1\n2 S 3\n3 T -\nfails 3\n")?;
    let lines = [
        task(2, 10),
        record(b'T', [3, 10, 4, 0]),
        task(1, 10),
        task(9, 10),
    ];
    lines_show(&rt, heap, &lines, "1 T 2\n2 T -\n3 T 6\n4 T -\nfails 2\n")
}

#[test]
fn a_plan_that_is_refused(rt: HostRuntime) -> Result<(), Fail> {
    let heap = rt.alloc();
    lines_show(
        &rt,
        heap,
        &[task(1, 4), server(b'S', 9, 8)],
        "refused 5 record 2 byte 4\n",
    )?;
    lines_show(
        &rt,
        heap,
        &[task(1, 4), record(b'T', [3, 8, 8, 8])],
        "refused 6 record 2 byte 16\n",
    )?;
    lines_show(
        &rt,
        heap,
        &[server(b'S', 2, 8), server(b'D', 2, 8)],
        "refused 13 record 2 byte 0\n",
    )?;
    shows(
        &rt,
        &repeated::<30>(task(1, 4)),
        "refused 1 record 0 byte 0\n",
    )?;
    shows(
        &rt,
        &repeated::<100>(server(b'P', 1, 40)),
        "refused 12 record 5 byte 0\n",
    )
}

#[test]
fn a_plan_of_more_than_20_lines(rt: HostRuntime) -> Result<(), Fail> {
    let line = task(1, 40);
    shows(&rt, &repeated::<420>(line), "refused 11 record 21 byte 0\n")?;
    shows(&rt, &repeated::<440>(line), "refused 11 record 21 byte 0\n")?;
    shows(&rt, &repeated::<460>(line), "refused 11 record 21 byte 0\n")?;
    shows(&rt, &repeated::<800>(line), "refused 11 record 21 byte 0\n")?;
    shows(&rt, &repeated::<450>(line), "refused 1 record 0 byte 0\n")
}
