// Requests of another run.
use crate::calls::Answer::*;
use crate::calls::Call;
use crate::calls::Call::*;
use crate::driver::answers;
use crate::plans::sample;
use run::items::{NO_COMPLETION, NO_REQUEST, Request};

// A request with the number 70.
fn put(line: u32, offered: u32, left: u32) -> Call {
    Put(Request {
        line,
        number: 70,
        offered,
        left,
    })
}

#[test]
fn requests_that_wait_for_nobody_take_places(rt: HostRuntime) {
    answers(
        &rt,
        &sample(b'S'),
        &mut [NO_REQUEST; 5],
        &mut [NO_COMPLETION; 4],
        &[
            // no line, a task's line, past the last line, nothing needed
            (put(0, 0, 1), Number(70)),
            (put(1, 0, 1), Number(70)),
            (put(4, 0, 1), Number(70)),
            (put(2, 0, 0), Number(70)),
            (Ask(2), ServerHas(2, 0, 0)),
            (Tick, Ticked(0, 1, 0b101)),
            (Tick, Ticked(1, 3, 0b100)),
            (Offer(2, 1), Number(1)),
            (Offer(2, 1), Refused(14)),
            (Ask(2), ServerHas(2, 1, 1)),
            (Tick, Ticked(2, 2, 0b110)),
            (Fetch, Completed(1, 0, 1, false)),
            (Fetch, Completed(2, 1, 1, false)),
            (Fetch, NoneWaits),
            (Offer(2, 1), Number(2)),
            (Offer(2, 1), Refused(14)),
        ],
    );
}

#[test]
fn a_request_of_a_later_time_takes_0_ticks(rt: HostRuntime) {
    answers(
        &rt,
        &sample(b'S'),
        &mut [NO_REQUEST; 2],
        &mut [NO_COMPLETION; 4],
        &[
            (put(2, 9, 1), Number(70)),
            (Offer(2, 1), Number(1)),
            (Ask(2), ServerHas(2, 2, 2)),
            (Tick, Ticked(0, 1, 0b111)),
            (Tick, Ticked(1, 2, 0b110)),
            (Tick, Ticked(2, 2, 0b110)),
            (Fetch, Completed(1, 0, 1, false)),
            (Fetch, Completed(2, 70, 0, false)),
            (Fetch, Completed(2, 1, 3, false)),
        ],
    );
}

#[test]
fn what_requests_need_is_added_up_in_64_bits(rt: HostRuntime) {
    answers(
        &rt,
        &sample(b'S'),
        &mut [NO_REQUEST; 2],
        &mut [NO_COMPLETION; 4],
        &[
            (put(2, 0, 4_294_967_295), Number(70)),
            (put(2, 0, 4_294_967_295), Number(70)),
            (Ask(2), ServerHas(2, 2, 8_589_934_590)),
        ],
    );
}
