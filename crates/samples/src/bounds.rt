// Plans at the bounds of their numbers.
use crate::answers::plan_times_are;
use crate::build::{repeated, server, task};
use crate::texts::{lines_show, shows};
use std::array;
use std::test::Fail;

// Tasks of 50,000 ticks, with periods from 999,981 to 1,000,000.
fn near_a_million() -> [[u8; 20]; 20] {
    array::from_fn(|i| 999_981 + i as u32).map(|period| task(50_000, period))
}

#[test]
fn twenty_lines_with_long_periods(rt: HostRuntime) -> Result<(), Fail> {
    let plan = near_a_million().concat(rt.alloc())?;
    let expected: [u32; 20] = array::from_fn(|i| if i < 19 { 50_000 * (i as u32 + 1) } else { 0 });
    plan_times_are(&rt, plan.as_slice(), Ok(20), expected);
    Ok(())
}

#[test]
fn twenty_lines_fill_the_longest_period(rt: HostRuntime) -> Result<(), Fail> {
    shows(
        &rt,
        &repeated::<400>(task(50_000, 1_000_000)),
        "1 T 50000\n2 T 100000\n3 T 150000\n4 T 200000\n5 T 250000\n\
        6 T 300000\n7 T 350000\n8 T 400000\n9 T 450000\n10 T 500000\n\
        11 T 550000\n12 T 600000\n13 T 650000\n14 T 700000\n15 T 750000\n\
        16 T 800000\n17 T 850000\n18 T 900000\n19 T 950000\n20 T 1000000\n\
        passes\n",
    )
}

// The first line leaves no tick free, so the demand of the lines below grows by a few ticks at each turn.
#[test]
fn no_tick_left(rt: HostRuntime) -> Result<(), Fail> {
    let mut lines = [task(1, 1_000_000); 20];
    lines[0] = task(1, 1);
    let plan = lines.concat(rt.alloc())?;
    let mut expected = [0; 20];
    expected[0] = 1;
    plan_times_are(&rt, plan.as_slice(), Ok(20), expected);
    Ok(())
}

#[test]
fn the_longest_period(rt: HostRuntime) -> Result<(), Fail> {
    let heap = rt.alloc();
    let last = task(1, 1_000_000);
    lines_show(
        &rt,
        heap,
        &[task(1_000_000, 1_000_000)],
        "1 T 1000000\npasses\n",
    )?;
    let lines = [server(b'S', 999_999, 1_000_000), last];
    lines_show(&rt, heap, &lines, "1 S 999999\n2 T 1000000\npasses\n")?;
    let lines = [server(b'P', 1_000_000, 1_000_000), last];
    lines_show(&rt, heap, &lines, "1 P 1000000\n2 T -\nfails 2\n")?;
    let lines = [server(b'D', 499_999, 1_000_000), last];
    lines_show(&rt, heap, &lines, "1 D 499999\n2 T 999999\npasses\n")?;
    let lines = [server(b'D', 500_000, 1_000_000), last];
    lines_show(&rt, heap, &lines, "1 D 500000\n2 T -\nfails 2\n")
}
