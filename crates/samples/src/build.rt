// Records, plans and drafts by hand.
use crate::answers::add;
use analysis::draft::Draft;
use server::kind::Server;
use std::array;
use std::test::Fail;

// The 20 bytes of a letter and four numbers.
pub(crate) fn record(letter: u8, numbers: [u32; 4]) -> [u8; 20] {
    let [work, period, deadline, first] = numbers.map(u32::to_le_bytes);
    let words = [[letter, 0, 0, 0], work, period, deadline, first];
    <[u8; 20]>::try_from(words.as_flattened()).unwrap()
}

// A task whose deadline is its period and whose first job arrives at 0.
pub(crate) fn task(work: u32, period: u32) -> [u8; 20] {
    record(b'T', [work, period, period, 0])
}

pub(crate) fn server(letter: u8, budget: u32, period: u32) -> [u8; 20] {
    record(letter, [budget, period, 0, 0])
}

// The record with these bytes in the three places that have to be zero.
pub(crate) fn marked(bytes: [u8; 20], marks: [u8; 3]) -> [u8; 20] {
    let mut bytes = bytes;
    bytes[1..4].copy_from_slice(&marks);
    bytes
}

// The first N bytes of the record over and over.
pub(crate) fn repeated<const N: usize>(bytes: [u8; 20]) -> [u8; N] {
    array::from_fn(|i| bytes[i % 20])
}

// A plan that passes with a server of any kind.
pub(crate) fn sample(letter: u8) -> [[u8; 20]; 3] {
    [task(1, 4), server(letter, 2, 8), task(3, 12)]
}

// A plan whose third line does not pass.
pub(crate) fn overloaded() -> [[u8; 20]; 3] {
    [task(1, 4), server(b'P', 2, 5), task(2, 6)]
}

pub(crate) fn drafted<S: Server, const N: usize>(records: [[u8; 20]; N]) -> Result<Draft<S>, Fail> {
    let mut draft = Draft::new();
    for bytes in records {
        add(&mut draft, bytes)?;
    }
    Ok(draft)
}
