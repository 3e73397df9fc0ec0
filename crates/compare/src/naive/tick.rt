// The steps of a tick.
use crate::answer::{Answer, Ended, Wait};
use crate::naive::list::List;
use crate::naive::plain_run::PlainRun;
use crate::naive::refusal::Refusal;
use crate::naive::row::Row;

impl Wait {
    // Whether it still needs work of a line.
    pub(crate) fn waits_for(&self, line: u64) -> bool {
        self.line == line && self.left > 0
    }
}

// The place of the earliest request that waits for a line.
fn earliest(requests: &List<Wait>, line: u64) -> Option<usize> {
    requests.items.iter().position(|wait| wait.waits_for(line))
}

// Works 1 on the earliest request of a line, to a time; its end, if that was the last of it.
fn serve(requests: &mut List<Wait>, line: u64, time: u64) -> Option<Ended> {
    let place = earliest(requests, line)?;
    let wait = requests.items.get_mut(place)?;
    wait.left = wait.left.saturating_sub(1);
    if wait.left > 0 {
        return None;
    }
    let wait = requests.items.pop_at(place)?;
    Some(Ended {
        line,
        number: wait.number,
        ticks: time.saturating_sub(wait.offered),
        early: false,
    })
}

impl PlainRun {
    // Arrivals, then the start of the tick for servers. Answers the ready lines as bits.
    fn begin(&mut self, requests: &List<Wait>) -> u64 {
        let mut ready = 0u64;
        let mut bit = 1u64;
        for (line, row) in (1u64..).zip(&mut self.rows) {
            let wanted = earliest(requests, line).is_some();
            if row.begin(self.time, wanted) {
                ready |= bit;
            }
            bit = bit.wrapping_mul(2);
        }
        ready
    }

    // The end of the tick for servers.
    fn end(&mut self, chosen: u64) {
        for (line, row) in (1u64..).zip(&mut self.rows) {
            row.end(self.time, line == chosen);
        }
        self.time = self.time.saturating_add(1);
    }

    pub(crate) fn tick(
        &mut self,
        requests: &mut List<Wait>,
        completions: &mut List<Ended>,
    ) -> Result<Answer, Refusal> {
        if completions.is_full() {
            return Err(Refusal::Completions);
        }
        if self.time >= 1_000_000_000 {
            return Err(Refusal::Time);
        }
        let number = self.time;
        let ready = self.begin(requests);
        let line = if ready == 0 {
            0
        } else {
            ready.trailing_zeros() as u64 + 1
        };
        let ended = match self.row(line) {
            None => None,
            Some(Row::Task(task)) => task.work(line, number + 1),
            Some(Row::Server(_)) => serve(requests, line, number + 1),
        };
        if let Some(ended) = ended {
            completions.put(ended);
        }
        self.end(line);
        Ok(Answer::Ticked {
            number,
            line,
            ready,
        })
    }
}
