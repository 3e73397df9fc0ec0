// The response-time equation, and its least solution.
ghost use Rattle.std.specs.Prelude.{◌≡◌, ◌<◌, ◌≤◌, length, take, slice_index_or, sum_by};
ghost use Rattle.std.specs.List.{All};
ghost use Rattle.plan.specs.Records.{Fit, blank};
ghost use Rattle.analysis.specs.Drafts.{lines};
ghost use Rattle.analysis.specs.Equation.{own, limit, share, demand};
ghost use Rattle.analysis.specs.Response.{Response};

use crate::draft::Draft;
use plan::line::Line;
use server::kind::Server;
use server::round::ceil_div;
use server::terms::ServerTerms;

// It has the shape of `limit_of` and reads other fields; a function of both would take the fields as closures.
fn own_work(line: &Line) -> u32
    ensures { result ≡ own line.now }
{
    match line {
        Line::Task(task) => task.work,
        Line::Server(server) => server.budget,
    }
}

fn limit_of(line: &Line) -> u32
    ensures { result ≡ limit line.now }
{
    match line {
        Line::Task(task) => task.deadline,
        Line::Server(server) => server.period,
    }
}

// The most that a line takes from the lines below it in w ticks. The bound on w stands in three contracts: a type for it would
// be taken off again at `ceil_div` and `ceiling`.
fn share_of<S: Server>(line: &Line, w: u32) -> u32
    requires fit { Fit line.now }
    requires window { w ≤ 1000000 }
    ensures value { result ≡ share S.Server.kind w line.now }
    ensures small { result ≤ 4000000 }
{
    match line {
        Line::Task(task) => ceil_div(w, task.period) * task.work,
        Line::Server(server) => S::ceiling(&ServerTerms::try_from(*server).unwrap(), w),
    }
}

// The shares of all these lines in w ticks.
fn shares<S: Server>(lines: &[Line], w: u32) -> u32
    requires fit { All Fit lines.now }
    requires few { length lines.now ≤ 20 }
    requires window { w ≤ 1000000 }
    ensures { result ≡ sum_by (share S.Server.kind w) lines.now }
{
    lines.iter().map(|line| share_of::<S>(line, w)).sum()
}

impl<S: Server> Draft<S> {
    // Own work of the line at place i, counted from 0, and the shares of all lines above it, in w ticks.
    fn demand(&self, i: usize, w: u32) -> u32
        requires place { i < length (lines self.now) }
        requires window { w ≤ 1000000 }
        ensures { result ≡ demand S.Server.kind (take i (lines self.now)) (slice_index_or (lines self.now) i blank) w }
    {
        own_work(&self.lines[i]) + shares::<S>(&self.lines[..i], w)
    }

    // The least solution of a line's equation, or none within its limit. Each turn goes on with the demand of the
    // time tried: no solution lies below it, since the demand never falls.
    pub(super) fn response_time(&self, i: usize) -> Option<u32>
        requires { i < length (lines self.now) }
        ensures { Response S.Server.kind (take i (lines self.now)) (slice_index_or (lines self.now) i blank) result }
    {
        let line = &self.lines[i];
        let limit = limit_of(line);
        let mut w = own_work(line);
        while w <= limit {
            let next = self.demand(i, w);
            if next <= w {
                return Some(w);
            }
            w = next;
        }
        None
    }
}
