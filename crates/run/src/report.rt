// What is told of a line.

#[derive(Clone, Copy, Debug, PartialEq, Eq)]
pub enum LineReport {
    // a task's unfinished work and its next arrival
    Task { unfinished: u64, next: u64 },
    // what a server holds, how many requests wait for it, and the ticks that they still need
    Server { held: u32, waits: u32, needs: u64 },
}
