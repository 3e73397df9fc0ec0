// Filling an admitted plan, and taking its lines back for changes.
ghost use Rattle.std.specs.Prelude.{◌≡◌, ◌≤◌, true, [], length, IfSome};
ghost use Rattle.std.specs.List.{All, slice_get};
ghost use Rattle.plan.specs.Records.{Fit};
ghost use Rattle.analysis.specs.Admission.{plan_lines, left_over, in_place};
ghost use Rattle.analysis.specs.Drafts.{lines};
ghost use Rattle.analysis.specs.Growth.{Served};
ghost use Rattle.analysis.specs.Verdicts.{verdict, accepts, judged, AllPass};

use crate::admitted::AdmittedPlan;
use crate::draft::Draft;
use crate::fault::LineFault;
use plan::line::Line;
use server::kind::Server;
use std::mem;

impl<S: Server> AdmittedPlan<S> {
    // An empty plan.
    #[tactic(auto, unfolding(crate::specs::Times::times, crate::specs::Verdicts::verdict))]
    pub fn new() -> Self
        ensures empty { plan_lines result ≡ [] }
        ensures passing { AllPass S.Server.kind (plan_lines result) }
        ensures served { Served S.Server.kind (plan_lines result) }
    {
        AdmittedPlan { plan: Draft::new() }
    }

    // How many lines it has.
    pub fn len(&self) -> usize
        ensures { result ≡ length (plan_lines self.now) }
    {
        self.plan.len()
    }

    // Its lines: at most 20, each within its bounds and of a letter that the kind serves, and all pass.
    #[tactic(auto, using(crate::proofs::Judging::accepted_passes))]
    pub fn lines(&self) -> &[Line]
        ensures value { result.now ≡ plan_lines self.now }
        ensures few { length result.now ≤ 20 }
        ensures fit { All Fit result.now }
        ensures served { Served S.Server.kind result.now }
        ensures passing { AllPass S.Server.kind result.now }
    {
        self.plan.lines()
    }

    // The line at a place, counted from 0; none past the last line.
    pub fn line(&self, place: usize) -> Option<Line>
        ensures value { result ≡ slice_get (plan_lines self.now) place }
        ensures fit { IfSome result Fit }
    {
        self.plan.line(place)
    }

    // Its lines as a draft again.
    pub fn reopen(self) -> Draft<S>
        ensures { lines result ≡ plan_lines self }
    {
        let AdmittedPlan { plan } = self;
        plan
    }

    fn take_over(&mut self, draft: &mut Draft<S>)
        requires { accepts (verdict S.Server.kind (lines draft.old)) ≡ true }
        ensures rest { lines draft.new ≡ [] }
        ensures plan { plan_lines self.new ≡ lines draft.old }
    {
        self.plan = mem::take(draft);
    }

    // Puts the lines of a draft that passes in place of its own, and leaves the draft empty. Where a line does not pass,
    // it is refused, and both stay as they stood.
    #[tactic(auto, using(crate::proofs::Judging::accepted_passes))]
    pub fn admit(&mut self, draft: &mut Draft<S>) -> Result<(), LineFault>
        ensures answered { judged result ≡ verdict S.Server.kind (lines draft.old) }
        ensures draft_after { lines draft.new ≡ left_over (judged result) (lines draft.old) }
        ensures plan_after { plan_lines self.new ≡ in_place (judged result) (lines draft.old) (plan_lines self.old) }
        ensures passing { AllPass S.Server.kind (plan_lines self.new) }
        ensures served { Served S.Server.kind (plan_lines self.new) }
    {
        draft.check()?;
        self.take_over(draft);
        Ok(())
    }
}
