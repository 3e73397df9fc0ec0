ghost use Rattle.std.specs.Prelude.{◌≤◌, length};

mod writes;

use arrayvec::ArrayVec;

// How many bytes a text holds at most.
const ROOM: usize = 320;

// The bytes of a text, in the order in which they were written.
#[derive(Drop)]
pub struct Text {
    bytes: ArrayVec<u8, ROOM>,
    ghost bounded: { length bytes.items ≤ 320 },
}
