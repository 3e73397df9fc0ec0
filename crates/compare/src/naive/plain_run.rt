// A run over plain tables: its calls but for the tick.
use crate::answer::{Answer, Answered, Ended, Wait};
use crate::draw::calls::{Op, QueueOp};
use crate::naive::lines::PlainPlan;
use crate::naive::list::List;
use crate::naive::refusal::Refusal;
use crate::naive::row::Row;
use crate::side::Machine;
use arrayvec::ArrayVec;

#[derive(Drop)]
pub(crate) struct PlainRun {
    pub(crate) time: u64,
    offers: u64,
    pub(crate) rows: ArrayVec<Row, 20>,
}

impl PlainRun {
    pub(crate) fn new(plan: &PlainPlan) -> PlainRun {
        let mut rows = ArrayVec::new();
        for line in plan {
            let _ = rows.try_push(Row::new(line));
        }
        PlainRun {
            time: 0,
            offers: 0,
            rows,
        }
    }

    // The row of a line, which counts from 1.
    pub(crate) fn row(&mut self, line: u64) -> Option<&mut Row> {
        let place = line.checked_sub(1)?;
        self.rows.get_mut(place as usize)
    }

    fn offer(&mut self, requests: &mut List<Wait>, line: u64, amount: u64) -> Result<u64, Refusal> {
        let Some(Row::Server(_)) = self.row(line) else {
            return Err(Refusal::Line);
        };
        if amount == 0 || amount > 65_535 {
            return Err(Refusal::Amount);
        }
        if requests.is_full() {
            return Err(Refusal::Requests);
        }
        if self.offers < u32::MAX as u64 {
            self.offers += 1;
        }
        requests.put(Wait {
            line,
            number: self.offers,
            offered: self.time,
            left: amount,
        });
        Ok(self.offers)
    }

    fn finish(&mut self, completions: &mut List<Ended>, line: u64) -> Result<(), Refusal> {
        let time = self.time;
        let Some(Row::Task(task)) = self.row(line) else {
            return Err(Refusal::Line);
        };
        if completions.is_full() {
            return Err(Refusal::Completions);
        }
        let ended = task.finish(line, time).ok_or(Refusal::Job)?;
        completions.put(ended);
        Ok(())
    }

    fn ask(&mut self, requests: &List<Wait>, line: u64) -> Result<Answer, Refusal> {
        match self.row(line).ok_or(Refusal::Line)? {
            Row::Task(task) => Ok(Answer::Task {
                unfinished: task.unfinished,
                next: task.next,
            }),
            Row::Server(server) => {
                let mut waits = 0u64;
                let mut needs = 0u64;
                for wait in requests.items.iter().filter(|wait| wait.waits_for(line)) {
                    waits = waits.saturating_add(1);
                    needs = needs.saturating_add(wait.left);
                }
                Ok(Answer::Server {
                    held: server.held,
                    waits,
                    needs,
                })
            }
        }
    }

    // How often a slice of one of its servers was added to the latest of 16 pending entries.
    pub(crate) fn merged(&self) -> u64 {
        self.rows
            .iter()
            .fold(0, |sum, row| sum.saturating_add(row.merged()))
    }
}

// Puts an item into a list, or looks at a place of one.
fn past_the_run(requests: &mut List<Wait>, completions: &mut List<Ended>, op: QueueOp) -> Answer {
    match op {
        QueueOp::PutRequest {
            line,
            number,
            offered,
            left,
        } => requests.put(Wait {
            line: line as u64,
            number: number as u64,
            offered: offered as u64,
            left: left as u64,
        }),
        QueueOp::PutCompletion {
            line,
            number,
            ticks,
            early,
        } => completions.put(Ended {
            line: line as u64,
            number: number as u64,
            ticks: ticks as u64,
            early,
        }),
        QueueOp::SeeRequest(place) => return requests.items.get(place as usize).copied().into(),
        QueueOp::SeeCompletion(place) => {
            return completions.items.get(place as usize).copied().into();
        }
    }
    Answer::Done
}

impl Machine<List<Wait>, List<Ended>> for PlainRun {
    fn answer(
        &mut self,
        requests: &mut List<Wait>,
        completions: &mut List<Ended>,
        op: Op,
    ) -> Answered {
        Ok(match op {
            Op::Tick => self.tick(requests, completions)?,
            Op::Offer { line, amount } => {
                Answer::Offered(self.offer(requests, line as u64, amount as u64)?)
            }
            Op::Finish(line) => {
                self.finish(completions, line as u64)?;
                Answer::Done
            }
            Op::Fetch => completions.items.pop_at(0).into(),
            Op::Ask(line) => self.ask(requests, line as u64)?,
            Op::Queue(op) => past_the_run(requests, completions, op),
        })
    }
}
