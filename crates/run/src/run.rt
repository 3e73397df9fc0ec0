// A run: the time, its lines, and how many requests were counted. A rule of the project: the caller keeps the two queues, and may
// give others with any call. `Session` holds all three together.
mod ask;
mod calls;
mod finish;
mod lines;
mod start;
mod tick;

use crate::rows::Rows;
use server::kind::Server;

#[derive(Drop)]
pub struct Run<S: Server + Copy> {
    time: u32,
    rows: Rows<S>,
    offers: u32,
}
