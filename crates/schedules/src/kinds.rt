// The schedule of the sample plan with each kind of server: 2 is offered before tick 7, and 2 before tick 10.
ghost use Rattle.run.specs.Sessions.{SessionFitsInMemory};

use crate::calls::Answer::*;
use crate::calls::Call::*;
use crate::calls::Step;
use crate::driver::{answers, follows, started};
use crate::plans::sample;
use run::items::{NO_COMPLETION, NO_REQUEST};
use server::deferrable::Deferrable;
use server::kind::Server;
use server::polling::Polling;
use std::process::Abort;

// The ticks up to the first offer, and what has ended then.
const BEFORE: [Step; 11] = [
    (Tick, Ticked(0, 1, 0b101)),
    (Tick, Ticked(1, 3, 0b100)),
    (Tick, Ticked(2, 3, 0b100)),
    (Tick, Ticked(3, 3, 0b100)),
    (Tick, Ticked(4, 1, 0b001)),
    (Tick, Ticked(5, 0, 0)),
    (Tick, Ticked(6, 0, 0)),
    (Fetch, Completed(1, 0, 1, false)),
    (Fetch, Completed(3, 0, 4, false)),
    (Fetch, Completed(1, 0, 1, false)),
    (Offer(2, 2), Number(1)),
];

// After those, a run of the sample plan with a server of this kind answers so.
fn schedule_is<S: Server + Copy>(rt: &impl Abort, letter: u8, steps: &[Step])
    requires { SessionFitsInMemory S.row }
{
    let mut waiting = [NO_REQUEST; 2];
    let mut completed = [NO_COMPLETION; 4];
    let mut session = started::<S>(rt, &sample(letter), &mut waiting, &mut completed);
    follows(rt, &mut session, &BEFORE);
    follows(rt, &mut session, steps);
}

#[test]
fn a_polling_server_waits_for_its_period(rt: HostRuntime) {
    schedule_is::<Polling>(
        &rt,
        b'P',
        &[
            (Tick, Ticked(7, 0, 0)),
            (Tick, Ticked(8, 1, 0b011)),
            (Tick, Ticked(9, 2, 0b010)),
            (Offer(2, 2), Number(2)),
            (Tick, Ticked(10, 2, 0b010)),
            (Tick, Ticked(11, 0, 0)),
            (Fetch, Completed(1, 0, 1, false)),
            (Fetch, Completed(2, 1, 4, false)),
            (Fetch, NoneWaits),
            (Ask(2), ServerHas(0, 1, 2)),
        ],
    );
}

#[test]
fn a_deferrable_server_is_filled_at_each_period(rt: HostRuntime) {
    schedule_is::<Deferrable>(
        &rt,
        b'D',
        &[
            (Tick, Ticked(7, 2, 0b010)),
            (Tick, Ticked(8, 1, 0b011)),
            (Tick, Ticked(9, 2, 0b010)),
            (Offer(2, 2), Number(2)),
            (Tick, Ticked(10, 2, 0b010)),
            (Tick, Ticked(11, 0, 0)),
            (Fetch, Completed(1, 0, 1, false)),
            (Fetch, Completed(2, 1, 3, false)),
            (Fetch, NoneWaits),
            (Ask(2), ServerHas(0, 1, 1)),
        ],
    );
}

#[test]
fn a_sporadic_server_has_each_slice_again_a_period_later(rt: HostRuntime) {
    answers(
        &rt,
        &sample(b'S'),
        &mut [NO_REQUEST; 2],
        &mut [NO_COMPLETION; 9],
        &[
            (Tick, Ticked(0, 1, 0b101)),
            (Tick, Ticked(1, 3, 0b100)),
            (Tick, Ticked(2, 3, 0b100)),
            (Tick, Ticked(3, 3, 0b100)),
            (Tick, Ticked(4, 1, 0b001)),
            (Tick, Ticked(5, 0, 0)),
            (Tick, Ticked(6, 0, 0)),
            (Offer(2, 2), Number(1)),
            (Tick, Ticked(7, 2, 0b010)),
            (Tick, Ticked(8, 1, 0b011)),
            (Tick, Ticked(9, 2, 0b010)),
            (Offer(2, 2), Number(2)),
            (Tick, Ticked(10, 0, 0)),
            (Tick, Ticked(11, 0, 0)),
            (Tick, Ticked(12, 1, 0b101)),
            (Tick, Ticked(13, 3, 0b100)),
            (Tick, Ticked(14, 3, 0b100)),
            (Tick, Ticked(15, 2, 0b110)),
            (Tick, Ticked(16, 1, 0b101)),
            (Tick, Ticked(17, 2, 0b110)),
            (Fetch, Completed(1, 0, 1, false)),
            (Fetch, Completed(3, 0, 4, false)),
            (Fetch, Completed(1, 0, 1, false)),
            (Fetch, Completed(1, 0, 1, false)),
            (Fetch, Completed(2, 1, 3, false)),
            (Fetch, Completed(1, 0, 1, false)),
            (Fetch, Completed(1, 0, 1, false)),
            (Fetch, Completed(2, 2, 8, false)),
            (Fetch, NoneWaits),
        ],
    );
}
