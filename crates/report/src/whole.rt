// Reading a whole plan.
ghost use Rattle.std.specs.Prelude.{◌≡◌, find, length, IfSome, IfOk};
ghost use Rattle.std.specs.Option.{option_map};
ghost use Rattle.analysis.specs.Admission.{plan_lines};
ghost use Rattle.analysis.specs.Drafts.{lines};
ghost use Rattle.analysis.specs.Growth.{Served};
ghost use Rattle.plan.specs.Answers.{answer};
ghost use Rattle.plan.specs.Kinds.{kind_letter};
ghost use Rattle.plan.specs.Records.{is_server};
ghost use Rattle.report.specs.Plans.{letters, plan_for, plan_letter};
ghost use Rattle.report.specs.Results.{drafted, listed, times_of, plan_times, counted, filled, admitted_lines};

use analysis::admitted::AdmittedPlan;
use analysis::draft::Draft;
use arrayvec::ArrayVec;
use plan::fault::{Fault, Refusal};
use plan::kind::ServerKind;
use plan::line::is_server;
use server::deferrable::Deferrable;
use server::kind::Server;
use server::polling::Polling;
use server::sporadic::Sporadic;

// The draft of a whole plan for one kind: its length first, then record by record.
pub fn read_plan<S: Server>(plan: &[u8]) -> Result<Draft<S>, Fault>
    ensures answered { drafted result ≡ plan_for S.Server.kind plan.now }
    ensures served { IfOk result (λ d. Served S.Server.kind (lines d)) }
{
    let (records, rest) = plan.as_chunks::<20>();
    if !rest.is_empty() {
        return Err(Refusal::Length.at(0));
    }
    let mut draft = Draft::new();
    for record in records {
        draft.add(record)?;
    }
    Ok(draft)
}

// The admitted plan of a whole plan's bytes for one kind; none where it is refused or does not pass.
pub fn admitted_plan<S: Server>(bytes: &[u8]) -> Option<AdmittedPlan<S>>
    ensures lines { option_map plan_lines result ≡ admitted_lines S.Server.kind bytes.now }
    ensures served { IfSome result (λ p. Served S.Server.kind (plan_lines p)) }
{
    let mut draft = read_plan::<S>(bytes).ok()?;
    let mut plan = AdmittedPlan::new();
    plan.admit(&mut draft).ok()?;
    Some(plan)
}

// The first letter of a server among these records.
fn first_server(records: &[[u8; 20]]) -> Option<u8>
    ensures { result ≡ find is_server (letters records.now) }
{
    records
        .iter()
        .map(|record| record[0])
        .find(|letter| is_server(*letter))
}

// The first letter of a server in a plan, or P. `plan_kind` gives the same as an enum.
pub fn plan_letter(plan: &[u8]) -> u8
    ensures { result ≡ plan_letter plan.now }
{
    first_server(plan.as_chunks::<20>().0).unwrap_or(b'P')
}

// The kind of the first server in a plan, or polling.
pub fn plan_kind(plan: &[u8]) -> ServerKind
    ensures { kind_letter result ≡ plan_letter plan.now }
{
    ServerKind::try_from(plan_letter(plan)).unwrap_or(ServerKind::Polling)
}

// The times of a whole plan for one kind.
fn times_for<S: Server>(plan: &[u8], out: &mut [u32]) -> Result<u32, Fault>
    ensures answered { answer result ≡ counted (times_of S.Server.kind (plan_for S.Server.kind plan.now)) (length out.old) }
    ensures after { out.new ≡ filled (times_of S.Server.kind (plan_for S.Server.kind plan.now)) out.old }
{
    let draft = read_plan::<S>(plan)?;
    draft.times(out)
}

// Writes the response time of each line of a whole plan, 0 where a line does not pass, and answers how many lines it has.
// Where it is refused, nothing is written. The kind is that of the plan's first server.
pub fn plan_times(plan: &[u8], out: &mut [u32]) -> Result<u32, Fault>
    ensures answered { answer result ≡ counted (plan_times plan.now) (length out.old) }
    ensures after { out.new ≡ filled (plan_times plan.now) out.old }
{
    // Named one by one: a closure has no type parameter, and no function may hand out a dyn.
    match plan_kind(plan) {
        ServerKind::Polling => times_for::<Polling>(plan, out),
        ServerKind::Deferrable => times_for::<Deferrable>(plan, out),
        ServerKind::Sporadic => times_for::<Sporadic>(plan, out),
    }
}

// The response time of each line of a whole plan, 0 where a line does not pass.
pub fn all_times(plan: &[u8]) -> Result<ArrayVec<u32, 20>, Fault>
    ensures { listed result ≡ plan_times plan.now }
{
    let mut times = ArrayVec::from([0; 20]);
    let count = plan_times(plan, &mut times)?;
    times.truncate(count as usize);
    Ok(times)
}
