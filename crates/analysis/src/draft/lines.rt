// The lines of a draft.
ghost use Rattle.std.specs.Prelude.{◌≡◌, ◌≤◌, [], length, IfSome};
ghost use Rattle.std.specs.List.{All, slice_get};
ghost use Rattle.plan.specs.Records.{Fit};
ghost use Rattle.analysis.specs.Drafts.{lines};
ghost use Rattle.analysis.specs.Growth.{Served};

use crate::draft::Draft;
use arrayvec::ArrayVec;
use plan::line::Line;
use server::kind::Server;
use std::marker::PhantomData;

impl<S: Server> Draft<S> {
    // An empty draft.
    pub fn new() -> Self
        ensures { lines result ≡ [] }
    {
        Draft {
            lines: ArrayVec::new(),
            kind: PhantomData,
        }
    }

    // How many lines it has.
    pub fn len(&self) -> usize
        ensures { result ≡ length (lines self.now) }
    {
        self.lines.len()
    }

    // Its lines: at most 20, each within its bounds, and of a letter that the kind serves.
    pub fn lines(&self) -> &[Line]
        ensures value { result.now ≡ lines self.now }
        ensures few { length result.now ≤ 20 }
        ensures fit { All Fit result.now }
        ensures served { Served S.Server.kind result.now }
    {
        self.lines.as_slice()
    }

    // The line at a place, counted from 0; none past the last line.
    pub fn line(&self, place: usize) -> Option<Line>
        ensures value { result ≡ slice_get (lines self.now) place }
        ensures fit { IfSome result Fit }
    {
        self.lines.get(place).copied()
    }
}

impl<S: Server> Default for Draft<S> {
    ghost is_default = { λ draft. lines draft ≡ [] };

    fn default() -> Self {
        Draft::new()
    }
}
