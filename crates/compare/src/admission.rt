// Plans to be run: the verdicts of both sides on their admission.
use crate::draw::drawn::Drawn;
use crate::draw::scene::{Actor, small_plan};
use crate::kind::Kind;
use crate::library::whole_plan::admission;
use crate::naive::bytes::read;
use crate::naive::lines::PlainPlan;
use crate::naive::refusal::Refusal;
use crate::naive::response::failing;
use crate::random::Random;
use crate::refused::Place;
use crate::tally::{Totals, count};

// What each side answered on the admission of a plan.
#[derive(Drop)]
pub(crate) struct AdmissionDifference {
    pub(crate) actor: Actor,
    pub(crate) library: Result<usize, Place>,
    pub(crate) naive: Result<usize, Place>,
}

// Whether the plan is admitted, by the second implementation: how many lines it has, or the line that does not pass.
fn naive_admission(plan: &PlainPlan) -> Result<usize, Place> {
    match failing(plan) {
        None => Ok(plan.len()),
        Some(line) => Err(Refusal::Fails.at(line, 0)),
    }
}

impl Actor {
    pub(crate) fn empty() -> Actor {
        Actor {
            kind: Kind::Polling,
            drawn: Drawn::empty(),
            plan: PlainPlan::new(),
        }
    }

    fn drawn(random: &mut Random) -> Actor {
        let kind = Kind::drawn(random);
        let served = !random.one_in(8);
        let drawn = small_plan(random, kind, served);
        let plan = match read(drawn.as_slice()) {
            Ok(plan) => plan,
            Err(_) => PlainPlan::new(),
        };
        Actor { kind, drawn, plan }
    }
}

impl Totals {
    // Draws plans until one is admitted; an empty plan after 100. The admission of each is compared.
    pub(crate) fn admitted_actor(
        &mut self,
        random: &mut Random,
    ) -> Result<Actor, AdmissionDifference> {
        for _ in 0..100u32 {
            let actor = Actor::drawn(random);
            let library = admission(actor.kind, actor.drawn.as_slice());
            let naive = naive_admission(&actor.plan);
            if library != naive {
                return Err(AdmissionDifference {
                    actor,
                    library,
                    naive,
                });
            }
            match library {
                Ok(_) => {
                    count(&mut self.admissions.granted);
                    return Ok(actor);
                }
                Err(place) => {
                    count(&mut self.admissions.refused);
                    self.refusals.note(place.refused);
                }
            }
        }
        Ok(Actor::empty())
    }
}
