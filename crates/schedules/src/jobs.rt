// Jobs that are ended early, and what is told of lines.
use crate::calls::Answer::*;
use crate::calls::Call::*;
use crate::driver::answers;
use crate::plans::{sample, task};
use run::items::{NO_COMPLETION, NO_REQUEST};

#[test]
fn a_job_is_finished_only_after_its_first_tick(rt: HostRuntime) {
    answers(
        &rt,
        &[task(2, 5, 1)],
        &mut [],
        &mut [NO_COMPLETION; 4],
        &[
            (Ask(1), TaskHas(0, 1)),
            (Finish(1), Refused(17)),
            (Tick, Ticked(0, 0, 0)),
            // time 1: the job arrives, but it has no work before the tick
            (Ask(1), TaskHas(0, 1)),
            (Finish(1), Refused(17)),
            (Tick, Ticked(1, 1, 1)),
            (Ask(1), TaskHas(1, 6)),
            (Finish(1), Finished),
            (Ask(1), TaskHas(0, 6)),
            (Finish(1), Refused(17)),
            (Tick, Ticked(2, 0, 0)),
            (Fetch, Completed(1, 0, 1, true)),
            (Tick, Ticked(3, 0, 0)),
            (Tick, Ticked(4, 0, 0)),
            (Tick, Ticked(5, 0, 0)),
            (Tick, Ticked(6, 1, 1)),
            (Tick, Ticked(7, 1, 1)),
            (Finish(1), Refused(17)),
            (Fetch, Completed(1, 0, 2, false)),
            (Fetch, NoneWaits),
            (Ask(1), TaskHas(0, 11)),
        ],
    );
}

#[test]
fn completions_are_fetched_oldest_first(rt: HostRuntime) {
    answers(
        &rt,
        &sample(b'S'),
        &mut [NO_REQUEST; 2],
        &mut [NO_COMPLETION; 4],
        &[
            (Fetch, NoneWaits),
            (Offer(2, 1), Number(1)),
            (Tick, Ticked(0, 1, 0b111)),
            (Tick, Ticked(1, 2, 0b110)),
            (Finish(3), Finished),
            (Fetch, Completed(1, 0, 1, false)),
            (Fetch, Completed(2, 1, 2, false)),
            (Fetch, Completed(3, 0, 2, true)),
            (Fetch, NoneWaits),
        ],
    );
}

#[test]
fn a_line_tells_what_is_left_to_do(rt: HostRuntime) {
    answers(
        &rt,
        &sample(b'S'),
        &mut [NO_REQUEST; 2],
        &mut [NO_COMPLETION; 4],
        &[
            (Ask(3), TaskHas(0, 0)),
            (Ask(2), ServerHas(2, 0, 0)),
            (Offer(2, 3), Number(1)),
            (Offer(2, 1), Number(2)),
            (Ask(2), ServerHas(2, 2, 4)),
            (Tick, Ticked(0, 1, 0b111)),
            (Tick, Ticked(1, 2, 0b110)),
            (Ask(2), ServerHas(1, 2, 3)),
            (Tick, Ticked(2, 2, 0b110)),
            (Ask(2), ServerHas(0, 2, 2)),
            (Ask(3), TaskHas(3, 12)),
            (Tick, Ticked(3, 3, 0b100)),
            (Ask(3), TaskHas(2, 12)),
            (Ask(1), TaskHas(0, 4)),
        ],
    );
}
