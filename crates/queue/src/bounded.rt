// The queue itself.
ghost use Rattle.std.specs.Prelude.{◌≤◌, min, length};

mod calls;

// A queue over memory that the caller lends: the first `taken` places hold the items, oldest first. It uses 64 places at most.
// A rule of the project: the memory is lent, so no vector.
#[derive(Drop)]
pub struct Queue<'a, T> {
    places: &'a mut [T],
    taken: usize,
    ghost within: { taken ≤ min 64 (length places.now) },
}
