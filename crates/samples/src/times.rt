// The times of a draft.
use crate::answers::times_are;
use crate::build::{drafted, overloaded, sample};
use analysis::draft::Draft;
use server::deferrable::Deferrable;
use server::polling::Polling;
use server::sporadic::Sporadic;
use std::test::Fail;

#[test]
fn times_go_by_the_kind(rt: HostRuntime) -> Result<(), Fail> {
    times_are(&rt, &drafted::<Polling, 3>(sample(b'P'))?, Ok(3), [1, 3, 7]);
    times_are(
        &rt,
        &drafted::<Deferrable, 3>(sample(b'D'))?,
        Ok(3),
        [1, 3, 10],
    );
    times_are(
        &rt,
        &drafted::<Sporadic, 3>(sample(b'S'))?,
        Ok(3),
        [1, 3, 7],
    );
    Ok(())
}

#[test]
fn times_fill_a_number_for_each_line(rt: HostRuntime) -> Result<(), Fail> {
    let draft = drafted::<Polling, 3>(overloaded())?;
    times_are(&rt, &draft, Err((9, 0, 0)), []);
    times_are(&rt, &draft, Err((9, 0, 0)), [77, 77]);
    times_are(&rt, &draft, Ok(3), [1, 3, 0]);
    times_are(&rt, &draft, Ok(3), [1, 3, 0, 77, 77]);
    times_are(&rt, &Draft::<Polling>::new(), Ok(0), [77]);
    Ok(())
}
