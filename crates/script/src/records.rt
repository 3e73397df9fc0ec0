// The records of a plan's lines, in a row.
mod writes;

use arrayvec::ArrayVec;

// A plan has at most 20 records of 20 bytes. Two more are kept, so that a longer plan is refused as such.
#[derive(Drop)]
pub struct Records {
    bytes: ArrayVec<u8, 440>,
}
