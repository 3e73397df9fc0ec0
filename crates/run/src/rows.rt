// The lines of a run in their places, 20 at most.
mod calls;
mod ready;

ghost use Rattle.std.specs.Prelude.{◌≤◌};

use crate::line::RunLine;

// The first `count` of `all` are the lines.
// No ArrayVec: `push` on one that is being built owes that its size fits, which a type parameter does not show.
#[derive(Drop)]
pub(crate) struct Rows<S> {
    all: [RunLine<S>; 20],
    count: usize,
    ghost few: { count ≤ 20 },
}
