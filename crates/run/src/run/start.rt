// The start of a run.
ghost use Rattle.std.specs.Prelude.{◌≡◌};
ghost use Rattle.analysis.specs.Admission.{plan_lines};
ghost use Rattle.queue.specs.Items.{room};
ghost use Rattle.run.specs.Machine.{started};
ghost use Rattle.run.specs.Promises.{Law, Timing};
ghost use Rattle.run.specs.Runs.{machine};

use crate::items::{Completion, Request};
use crate::rows::Rows;
use crate::run::Run;
use analysis::admitted::AdmittedPlan;
use queue::Queue;
use server::kind::Server;

impl<S: Server + Copy> Run<S> {
    // A run of an admitted plan, which it uses up. Both queues are emptied, and the caller gives the same two with each later
    // call. After any calls tried on the run, granted or refused, the laws of a run hold.
    pub fn start(
        plan: AdmittedPlan<S>,
        requests: &mut Queue<'_, Request>,
        completions: &mut Queue<'_, Completion>,
    ) -> Run<S>
        ensures begun { machine S.Server result requests.new completions.new ≡ started (plan_lines plan) (room requests.old) (room completions.old) }
        ensures law { Law S.Server.kind (plan_lines plan) (machine S.Server result requests.new completions.new) }
        ensures timing { Timing S.Server.kind (plan_lines plan) (machine S.Server result requests.new completions.new) }
    {
        Run::begin(plan, requests, completions)
    }

    fn begin(
        plan: AdmittedPlan<S>,
        requests: &mut Queue<'_, Request>,
        completions: &mut Queue<'_, Completion>,
    ) -> Run<S>
        ensures { machine S.Server result requests.new completions.new ≡ started (plan_lines plan) (room requests.old) (room completions.old) }
    {
        requests.clear();
        completions.clear();
        Run {
            time: 0,
            rows: Rows::new(plan.lines()),
            offers: 0,
        }
    }
}
