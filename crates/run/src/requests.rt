// The requests that wait.
ghost use Rattle.std.specs.Prelude.{◌≡◌, ℕ, ◌+◌, ◌<◌, false, ◌||◌, position, slice_index_or};
ghost use Rattle.run.specs.Machine.{count_waiting, sum_waiting};
ghost use Rattle.queue.specs.Items.{items, room};
ghost use Rattle.run.specs.Requests.{Marks, waits_for, earliest, served};

use crate::items::Request;
use queue::Queue;

impl Request {
    // Whether the request waits for this line.
    fn waits_for(&self, line: u32) -> bool
        ensures { result ≡ waits_for line self.now }
    {
        self.line == line && self.left >= 1
    }
}

// Marks the line that a request waits for, the first line at place 0.
fn mark(wants: &mut [bool; 20], request: &Request)
    ensures { (i : ℕ) → i < 20 → slice_index_or wants.new i false ≡ (slice_index_or wants.old i false || waits_for (i + 1) request.now) }
{
    let line = request.line as usize;
    if request.left >= 1 && (1..=20).contains(&line) {
        wants[line - 1] = true;
    }
}

// For which lines a request waits, the first line at place 0.
// One pass over the requests for all lines together, once in a tick.
pub(crate) fn wanted_lines(requests: &[Request]) -> [bool; 20]
    ensures { Marks requests.now result }
{
    let mut wants = [false; 20];
    for request in requests {
        mark(&mut wants, request);
    }
    wants
}

// How many requests wait for this line.
pub(crate) fn count_waiting(requests: &Queue<'_, Request>, line: u32) -> u32
    ensures { result ≡ count_waiting line (items requests.now) }
{
    requests
        .as_slice()
        .iter()
        .filter(|request| request.waits_for(line))
        .count() as u32
}

// What the requests that wait for this line still need.
pub(crate) fn sum_waiting(requests: &Queue<'_, Request>, line: u32) -> u64
    ensures { result ≡ sum_waiting line (items requests.now) }
{
    requests
        .as_slice()
        .iter()
        .filter(|request| request.waits_for(line))
        .map(|request| request.left as u64)
        .sum()
}

// The place of the earliest request that waits for this line, if one does.
fn first_waiting(requests: &[Request], line: u32) -> Option<usize>
    ensures { result ≡ position (waits_for line) requests.now }
{
    requests.iter().position(|request| request.waits_for(line))
}

// The earliest request that waits for this line is worked on for a tick; with nothing left to do it goes.
#[tactic(auto, using(crate::proofs::Serving::serving))]
pub(crate) fn serve(requests: &mut Queue<'_, Request>, line: u32) -> Option<Request>
    ensures which { result ≡ earliest line (items requests.old) }
    ensures items { items requests.new ≡ served line (items requests.old) }
    ensures room { room requests.new ≡ room requests.old }
{
    let place = first_waiting(requests.as_slice(), line)?;
    let request = requests.get(place)?;
    if request.left == 1 {
        let _ = requests.take(place);
    } else {
        let left = request.left.saturating_sub(1);
        requests.set(place, Request { left, ..request });
    }
    Some(request)
}
