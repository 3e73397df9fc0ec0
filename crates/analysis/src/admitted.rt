// An admitted plan: all its lines pass. It is filled by admission alone, and used up where it is reopened.
ghost use Rattle.std.specs.Prelude.{◌≡◌, true};
ghost use Rattle.analysis.specs.Drafts.{lines};
ghost use Rattle.analysis.specs.Verdicts.{verdict, accepts};

mod admission;

use crate::draft::Draft;
use server::kind::Server;

#[derive(Drop)]
pub struct AdmittedPlan<S: Server> {
    plan: Draft<S>,
    ghost passing: { accepts (verdict S.Server.kind (lines plan)) ≡ true },
}
