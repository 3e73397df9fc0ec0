// A draft: lines that may still change, for one kind of server.
ghost use Rattle.std.specs.Prelude.{◌≤◌, length};
ghost use Rattle.std.specs.List.{All};
ghost use Rattle.plan.specs.Records.{Fit};
ghost use Rattle.analysis.specs.Fitting.{all_fit_prop};
ghost use Rattle.analysis.specs.Growth.{Served};
ghost use Rattle.std.proofs.Props.{props};

mod add;
mod asks;
mod equation;
mod lines;

use arrayvec::ArrayVec;
use plan::line::Line;
use server::kind::Server;
use std::marker::PhantomData;

// Each of its lines is within its bounds, and of a letter that the kind serves.
#[derive(Drop)]
pub struct Draft<S: Server> {
    lines: ArrayVec<Line, 20>,
    kind: PhantomData<S>,
    ghost few: { length lines.items ≤ 20 },
    ghost fit: { All Fit lines.items } by { all_fit_prop lines.items },
    ghost served: { Served S.Server.kind lines.items } by { Prim.hlevel props },
}
