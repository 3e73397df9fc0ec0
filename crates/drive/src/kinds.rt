// The turns of a plan's run, for any kind of server.
ghost use Rattle.std.specs.Prelude.{◌≡◌};
ghost use Rattle.report.specs.Results.{admitted_lines};
ghost use Rattle.run.specs.Sessions.{SessionFitsInMemory};
ghost use Rattle.drive.specs.Whole.{driven_lines};

use crate::turns::turns;
use queue::Queue;
use report::whole::admitted_plan;
use run::items::{NO_COMPLETION, NO_REQUEST};
use run::session::Session;
use server::kind::Server;

// Admits a plan for a kind, starts its run and makes the turns.
pub(crate) fn drive_for<S: Server + Copy>(bytes: &[u8], ticks: u32, amount: u32, places: u32) -> u64
    requires { SessionFitsInMemory S.row }
    ensures { result ≡ driven_lines S.Server.kind ticks amount places (admitted_lines S.Server.kind bytes.now) }
{
    let Some(plan) = admitted_plan::<S>(bytes) else {
        return 0;
    };
    let lines = plan.lines().len() as u32;
    let mut waiting = [NO_REQUEST; 64];
    let mut ended = [NO_COMPLETION; 64];
    let requests = Queue::new(&mut waiting[..places.min(64) as usize]);
    let mut session = Session::start(plan, requests, Queue::new(&mut ended));
    turns(&mut session, lines, ticks, amount)
}
