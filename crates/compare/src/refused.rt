// Refusals, as both sides answer them.

// A refusal, by its number.
#[derive(Clone, Copy, PartialEq, Eq, Debug)]
pub(crate) struct Refused(pub(crate) u32);

// A refusal with the record and the byte that it names.
#[derive(Clone, Copy, PartialEq, Eq, Debug)]
pub(crate) struct Place {
    pub(crate) refused: Refused,
    pub(crate) record: u32,
    pub(crate) byte: u32,
}
