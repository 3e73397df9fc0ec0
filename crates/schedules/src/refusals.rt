// Refused calls, and that they change nothing.
use crate::calls::Answer::*;
use crate::calls::Call::*;
use crate::driver::answers;
use crate::plans::sample;
use run::items::{NO_COMPLETION, NO_REQUEST};

#[test]
fn a_call_names_a_line_of_its_sort(rt: HostRuntime) {
    answers(
        &rt,
        &sample(b'S'),
        &mut [NO_REQUEST; 1],
        &mut [NO_COMPLETION; 1],
        &[
            (Offer(0, 1), Refused(7)),
            (Offer(1, 1), Refused(7)),
            (Offer(3, 1), Refused(7)),
            (Offer(4, 1), Refused(7)),
            (Offer(4_294_967_295, 1), Refused(7)),
            (Offer(1, 0), Refused(7)),
            (Offer(4, 65_536), Refused(7)),
            (Finish(0), Refused(7)),
            (Finish(2), Refused(7)),
            (Finish(4), Refused(7)),
            (Ask(0), Refused(7)),
            (Ask(4), Refused(7)),
            (Ask(21), Refused(7)),
            (Ask(2), ServerHas(2, 0, 0)),
            (Offer(2, 1), Number(1)),
        ],
    );
}

#[test]
fn the_requests_are_full(rt: HostRuntime) {
    answers(
        &rt,
        &sample(b'S'),
        &mut [NO_REQUEST; 2],
        &mut [NO_COMPLETION; 4],
        &[
            (Offer(2, 2), Number(1)),
            (Offer(2, 3), Number(2)),
            (Offer(2, 1), Refused(14)),
            (Offer(2, 0), Refused(8)),
            (Offer(1, 1), Refused(7)),
            (Ask(2), ServerHas(2, 2, 5)),
            (Tick, Ticked(0, 1, 0b111)),
            (Tick, Ticked(1, 2, 0b110)),
            (Offer(2, 1), Refused(14)),
            (Tick, Ticked(2, 2, 0b110)),
            (Offer(2, 4), Number(3)),
            (Ask(2), ServerHas(0, 2, 7)),
        ],
    );
}

// Also where the tick would add nothing, or there is no job to finish.
#[test]
fn the_completions_are_full(rt: HostRuntime) {
    answers(
        &rt,
        &sample(b'S'),
        &mut [NO_REQUEST; 1],
        &mut [NO_COMPLETION; 1],
        &[
            (Tick, Ticked(0, 1, 0b101)),
            (Tick, Refused(15)),
            (Finish(1), Refused(15)),
            (Finish(3), Refused(15)),
            (Finish(2), Refused(7)),
            (Ask(1), TaskHas(0, 4)),
            (Ask(3), TaskHas(3, 12)),
            (Offer(2, 1), Number(1)),
            (Fetch, Completed(1, 0, 1, false)),
            (Fetch, NoneWaits),
            (Finish(1), Refused(17)),
            (Tick, Ticked(1, 2, 0b110)),
            (Fetch, Completed(2, 1, 1, false)),
            (Finish(3), Finished),
            (Tick, Refused(15)),
            (Fetch, Completed(3, 0, 2, true)),
            (Tick, Ticked(2, 0, 0)),
        ],
    );
}

#[test]
fn queues_over_no_memory_are_full(rt: HostRuntime) {
    answers(
        &rt,
        &sample(b'S'),
        &mut [],
        &mut [],
        &[
            (Offer(2, 1), Refused(14)),
            (Offer(2, 0), Refused(8)),
            (Offer(3, 1), Refused(7)),
            (Tick, Refused(15)),
            (Finish(1), Refused(15)),
            (Finish(2), Refused(7)),
            (Fetch, NoneWaits),
            (Ask(1), TaskHas(0, 0)),
            (Ask(2), ServerHas(2, 0, 0)),
        ],
    );
}
