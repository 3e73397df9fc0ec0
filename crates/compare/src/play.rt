// The runs of a scene: every answer of both sides.
use crate::answer::{Answered, Ended, Wait};
use crate::draw::calls::{Call, Op, QueueOp};
use crate::draw::scene::{CALLS, Scene};
use crate::kind::Kind;
use crate::library::any_run::AnyRun;
use crate::naive::list::List;
use crate::naive::plain_run::PlainRun;
use crate::side::{Pair, Side, Which};
use crate::tally::{Totals, count};
use queue::Queue;
use run::items::{Completion, Request};

// After how many calls of a scene the sides differ, at which call, and what each answered.
#[derive(Clone, Copy)]
pub(crate) struct CallDifference {
    pub(crate) after: usize,
    pub(crate) call: Call,
    pub(crate) library: Answered,
    pub(crate) naive: Answered,
}

type LibrarySide<'a> = Side<AnyRun, Queue<'a, Request>, Queue<'a, Completion>>;

type NaiveSide = Side<PlainRun, List<Wait>, List<Ended>>;

// Two sides of the same two runs.
#[derive(Drop)]
struct Both<'a> {
    library: LibrarySide<'a>,
    naive: NaiveSide,
    served: Pair<Option<Kind>>,
}

impl<'a> Both<'a> {
    // One call on both sides.
    fn step(
        &mut self,
        totals: &mut Totals,
        after: usize,
        call: Call,
    ) -> Result<(), CallDifference> {
        let library = self.library.answer(&call);
        let naive = self.naive.answer(&call);
        totals.note(*self.served.of(call.run), &call, &library);
        if library == naive {
            Ok(())
        } else {
            Err(CallDifference {
                after,
                call,
                library,
                naive,
            })
        }
    }

    // The calls of a scene.
    fn calls(&mut self, totals: &mut Totals, scene: &Scene) -> Result<(), CallDifference> {
        for (after, call) in scene.calls.iter().enumerate() {
            self.step(totals, after, *call)?;
        }
        Ok(())
    }

    // Ticks of the first run to the time 1,000,000,000, and one more.
    fn ticks(&mut self, totals: &mut Totals) -> Result<(), CallDifference> {
        let tick = Call::own(Which::First, Op::Tick);
        for _ in 0..1_000_000_001u32 {
            self.step(totals, 0, tick)?;
        }
        Ok(())
    }

    // Asks of every line, and looks at every place of the queues.
    fn state(&mut self, totals: &mut Totals, run: Which) -> Result<(), CallDifference> {
        for line in 0..22u32 {
            self.step(totals, CALLS, Call::own(run, Op::Ask(line)))?;
        }
        for place in 0..65u32 {
            for op in [QueueOp::SeeRequest(place), QueueOp::SeeCompletion(place)] {
                self.step(totals, CALLS, Call::own(run, Op::Queue(op)))?;
            }
        }
        Ok(())
    }
}

const REQUEST: Request = Request {
    line: 1,
    number: 2,
    offered: 3,
    left: 4,
};

const COMPLETION: Completion = Completion {
    line: 1,
    number: 2,
    ticks: 3,
    early: true,
};

// A queue over so many places of lent memory, with an item where there is room: starting a run empties it.
fn lent<'a, T: Copy + Drop>(memory: &'a mut [T; 80], places: usize, item: T) -> Queue<'a, T> {
    let mut queue = Queue::new(&mut memory[..places.min(80)]);
    let _ = queue.push(item);
    queue
}

fn library_side<'a>(
    scene: &Scene,
    mut requests: Pair<Queue<'a, Request>>,
    mut completions: Pair<Queue<'a, Completion>>,
) -> LibrarySide<'a> {
    let Pair { first, second } = &scene.actors;
    let runs = Pair {
        first: first.run(&mut requests.first, &mut completions.first),
        second: second.run(&mut requests.second, &mut completions.second),
    };
    Side {
        runs,
        requests,
        completions,
    }
}

fn naive_side(scene: &Scene) -> NaiveSide {
    let Pair { first, second } = scene.places;
    Side {
        runs: Pair {
            first: PlainRun::new(&scene.actors.first.plan),
            second: PlainRun::new(&scene.actors.second.plan),
        },
        requests: Pair {
            first: List::new(first.requests),
            second: List::new(second.requests),
        },
        completions: Pair {
            first: List::new(first.completions),
            second: List::new(second.completions),
        },
    }
}

impl Totals {
    // One more run, with what its servers merged.
    fn note_run(&mut self, served: Option<Kind>, run: &PlainRun) {
        count(&mut self.runs.of(served).runs);
        self.merged = self.merged.saturating_add(run.merged());
    }

    // The two runs of a scene, through all its calls; before them the first run is ticked to the end of time if so asked.
    pub(crate) fn play(&mut self, scene: &Scene, to_the_end: bool) -> Result<(), CallDifference> {
        let Pair { first, second } = scene.places;
        let (mut one, mut two) = ([REQUEST; 80], [COMPLETION; 80]);
        let (mut three, mut four) = ([REQUEST; 80], [COMPLETION; 80]);
        let requests = Pair {
            first: lent(&mut one, first.requests, REQUEST),
            second: lent(&mut three, second.requests, REQUEST),
        };
        let completions = Pair {
            first: lent(&mut two, first.completions, COMPLETION),
            second: lent(&mut four, second.completions, COMPLETION),
        };
        let mut both = Both {
            library: library_side(scene, requests, completions),
            naive: naive_side(scene),
            served: Pair {
                first: scene.actors.first.served(),
                second: scene.actors.second.served(),
            },
        };
        if to_the_end {
            both.ticks(self)?;
        }
        both.calls(self, scene)?;
        for run in [Which::First, Which::Second] {
            both.state(self, run)?;
            self.note_run(*both.served.of(run), both.naive.runs.of(run));
        }
        Ok(())
    }
}
