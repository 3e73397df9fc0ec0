// How much of the lent memory the queues use.
ghost use Rattle.std.specs.Prelude.{ℕ, ◌<◌};

use crate::calls::Answer::*;
use crate::calls::Call::*;
use crate::calls::{Answer, Call, Step};
use crate::driver::answers;
use crate::plans::{server, task};
use run::items::{NO_COMPLETION, NO_REQUEST};
use std::array;

// A call 65 times: the first so many are granted, each answered by its place, and the others refused.
fn first_granted<F: Fn(u32) -> Answer>(
    places: usize,
    call: Call,
    granted: F,
    refused: Answer,
) -> [Step; 65]
    requires { (i : ℕ) → i < 65 → F.pre granted i }
{
    array::from_fn(|i| {
        let answer = if i < places {
            granted(i as u32)
        } else {
            refused
        };
        (call, answer)
    })
}

fn offers(places: usize) -> [Step; 65] {
    first_granted(places, Offer(1, 1), |i| Number(i + 1), Refused(14))
}

// Each tick completes a job.
fn ticks(places: usize) -> [Step; 65] {
    first_granted(places, Tick, |i| Ticked(i, 1, 1), Refused(15))
}

#[test]
fn requests_take_64_places_at_most(rt: HostRuntime) {
    let lines = [server(b'S', 1, 1)];
    answers(&rt, &lines, &mut [NO_REQUEST; 65], &mut [], &offers(64));
    answers(&rt, &lines, &mut [NO_REQUEST; 63], &mut [], &offers(63));
}

#[test]
fn completions_take_64_places_at_most(rt: HostRuntime) {
    let lines = [task(1, 1, 0)];
    answers(&rt, &lines, &mut [], &mut [NO_COMPLETION; 65], &ticks(64));
    answers(&rt, &lines, &mut [], &mut [NO_COMPLETION; 63], &ticks(63));
}
