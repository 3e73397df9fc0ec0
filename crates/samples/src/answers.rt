// Whole answers, compared as plain values.
use analysis::draft::Draft;
use analysis::fault::LineFault;
use plan::fault::Fault;
use report::whole::plan_times;
use server::kind::Server;
use std::process::Abort;

// The number, the record and the byte of a refusal.
pub(crate) type Place = (u32, u32, u32);

pub(crate) fn told<T: Drop>(answer: Result<T, Fault>) -> Result<T, Place> {
    answer.map_err(|fault| (fault.refusal.number(), fault.record, fault.byte))
}

pub(crate) fn add<S: Server, const N: usize>(
    draft: &mut Draft<S>,
    bytes: [u8; N],
) -> Result<u32, Place> {
    told(draft.add(&bytes))
}

// The record that is added is answered so.
pub(crate) fn adds<S: Server, const N: usize>(
    rt: &impl Abort,
    draft: &mut Draft<S>,
    bytes: [u8; N],
    answer: Result<u32, Place>,
) {
    assert_eq!(rt; add(draft, bytes), answer, "{bytes:?}");
}

// What the numbers are before times are written.
const UNTOUCHED: u32 = 77;

// What writes times answers so, and the numbers are these then.
fn writes<const N: usize, F: FnOnce(&mut [u32]) -> Result<u32, Fault>>(
    rt: &impl Abort,
    write: F,
    answer: Result<u32, Place>,
    numbers: [u32; N],
)
    requires { F.IsAlwaysCallable write }
{
    let mut written = [UNTOUCHED; N];
    let told = told(write(&mut written));
    assert_eq!(rt; (told, written), (answer, numbers));
}

// The times of a draft are answered so, and the numbers are these then.
pub(crate) fn times_are<S: Server, const N: usize>(
    rt: &impl Abort,
    draft: &Draft<S>,
    answer: Result<u32, Place>,
    numbers: [u32; N],
) {
    writes(rt, |out| draft.times(out), answer, numbers);
}

// The same of a whole plan.
pub(crate) fn plan_times_are<const N: usize>(
    rt: &impl Abort,
    plan: &[u8],
    answer: Result<u32, Place>,
    numbers: [u32; N],
) {
    writes(rt, |out| plan_times(plan, out), answer, numbers);
}

// The lines pass, or they are refused by this number and line.
pub(crate) fn verdict_is(
    rt: &impl Abort,
    verdict: Result<(), LineFault>,
    expected: Result<(), (u32, u32)>,
) {
    assert_eq!(rt;
        verdict.map_err(|fault| (fault.refusal.number(), fault.line)),
        expected
    );
}
