// What a tick answers.

// A tick's number, the line chosen for it (0 for none), and the lines that were ready as bits, the lowest for line 1.
// 0 and no Option: this form is fixed, and lines are numbered from 1.
#[derive(Clone, Copy, Debug, PartialEq, Eq)]
pub struct Ticked {
    pub number: u32,
    pub line: u32,
    pub ready: u32,
}
