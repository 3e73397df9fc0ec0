// Drafts: which records they take.
use crate::answers::{Place, adds, times_are};
use crate::build::{record, repeated, server, task};
use crate::faults::{several, single};
use analysis::draft::Draft;
use server::deferrable::Deferrable;
use server::kind::Server;
use server::polling::Polling;
use server::sporadic::Sporadic;
use std::process::Abort;

#[test]
fn a_refused_record_changes_nothing(rt: HostRuntime) {
    let mut draft = Draft::<Polling>::new();
    adds(&rt, &mut draft, task(1, 4), Ok(1));
    adds(&rt, &mut draft, task(2, 8), Ok(2));
    for (bytes, (number, byte)) in single().into_iter().chain(several()) {
        adds(&rt, &mut draft, bytes, Err((number, 3, byte)));
    }
    adds(&rt, &mut draft, repeated::<19>(task(1, 4)), Err((1, 0, 0)));
    adds(&rt, &mut draft, repeated::<21>(task(1, 4)), Err((1, 0, 0)));
    times_are(&rt, &draft, Ok(2), [1, 3, 77, 77]);
}

// Adds the records in order; each is answered as stated.
fn takes<S: Server, const N: usize>(
    rt: &impl Abort,
    draft: &mut Draft<S>,
    steps: [([u8; 20], Result<u32, Place>); N],
) {
    for (bytes, answer) in steps {
        adds(rt, draft, bytes, answer);
    }
}

// Twenty lines, of which the last four are servers.
fn full(rt: &impl Abort) -> Draft<Polling> {
    let mut draft = Draft::new();
    for n in 1..=20 {
        let bytes = if n <= 16 {
            task(1, 40)
        } else {
            server(b'P', 1, 40)
        };
        adds(rt, &mut draft, bytes, Ok(n));
    }
    draft
}

#[test]
fn a_21st_line_is_refused(rt: HostRuntime) {
    let mut draft = full(&rt);
    takes(
        &rt,
        &mut draft,
        [
            (task(1, 40), Err((11, 21, 0))),
            (server(b'P', 1, 40), Err((11, 21, 0))),
            (server(b'S', 1, 40), Err((11, 21, 0))),
            (record(b'T', [5, 4, 4, 0]), Err((5, 21, 4))),
            (record(b'S', [2, 8, 0, 1]), Err((6, 21, 16))),
        ],
    );
    adds(&rt, &mut draft, repeated::<19>(task(1, 40)), Err((1, 0, 0)));
    assert_eq!(rt; draft.len(), 20);
}

#[test]
fn a_fifth_server_is_refused(rt: HostRuntime) {
    let mut draft = Draft::<Deferrable>::new();
    takes(
        &rt,
        &mut draft,
        [
            (server(b'D', 1, 40), Ok(1)),
            (server(b'D', 2, 40), Ok(2)),
            (task(1, 40), Ok(3)),
            (server(b'D', 3, 40), Ok(4)),
            (server(b'D', 4, 40), Ok(5)),
            (server(b'D', 1, 40), Err((12, 6, 0))),
            (server(b'P', 1, 40), Err((12, 6, 0))),
            (server(b'D', 9, 8), Err((5, 6, 4))),
            (task(1, 40), Ok(6)),
            (server(b'D', 1, 40), Err((12, 7, 0))),
        ],
    );
}

// Servers of the letters P, D and S, added in this order after one line, are answered so.
fn letters_are<S: Server>(rt: &impl Abort, answers: [Result<u32, Place>; 3]) {
    let mut draft = Draft::<S>::new();
    let [polling, deferrable, sporadic] = answers;
    takes(
        rt,
        &mut draft,
        [
            (task(1, 4), Ok(1)),
            (server(b'P', 1, 8), polling),
            (server(b'D', 1, 8), deferrable),
            (server(b'S', 1, 8), sporadic),
        ],
    );
}

#[test]
fn each_kind_serves_its_letter(rt: HostRuntime) {
    let second = Err((13, 2, 0));
    let third = Err((13, 3, 0));
    letters_are::<Polling>(&rt, [Ok(2), third, third]);
    letters_are::<Deferrable>(&rt, [second, Ok(2), third]);
    letters_are::<Sporadic>(&rt, [second, second, Ok(2)]);
}
