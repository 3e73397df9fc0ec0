// The amounts of requests.
use crate::calls::Answer::*;
use crate::calls::Call::*;
use crate::driver::answers;
use crate::plans::sample;
use run::items::{NO_COMPLETION, NO_REQUEST};

#[test]
fn an_amount_is_from_1_to_65_535(rt: HostRuntime) {
    answers(
        &rt,
        &sample(b'S'),
        &mut [NO_REQUEST; 4],
        &mut [NO_COMPLETION; 4],
        &[
            (Offer(2, 0), Refused(8)),
            (Offer(2, 65_536), Refused(8)),
            (Offer(2, 4_294_967_295), Refused(8)),
            (Ask(2), ServerHas(2, 0, 0)),
            (Offer(2, 65_535), Number(1)),
            (Ask(2), ServerHas(2, 1, 65_535)),
            (Offer(2, 65_536), Refused(8)),
            (Offer(2, 1), Number(2)),
            (Ask(2), ServerHas(2, 2, 65_536)),
        ],
    );
}
