// Scenes one after another: admission, then runs.
use crate::admission::AdmissionDifference;
use crate::draw::scene::{Actor, Places, Scene};
use crate::play::CallDifference;
use crate::random::Random;
use crate::side::Pair;
use crate::tally::Totals;

#[derive(Drop)]
pub(crate) enum SceneDifference {
    Admission(AdmissionDifference),
    Call(Scene, CallDifference),
}

impl From<AdmissionDifference> for SceneDifference {
    fn from(difference: AdmissionDifference) -> SceneDifference {
        SceneDifference::Admission(difference)
    }
}

impl Totals {
    fn compare_scene(&mut self, scene: Scene, to_the_end: bool) -> Result<(), SceneDifference> {
        match self.play(&scene, to_the_end) {
            Ok(()) => Ok(()),
            Err(difference) => Err(SceneDifference::Call(scene, difference)),
        }
    }

    // So many scenes of two plans that are admitted, until two answers differ.
    pub(crate) fn compare_scenes(
        &mut self,
        random: &mut Random,
        many: u64,
    ) -> Result<(), SceneDifference> {
        for _ in 0..many {
            let actors = Pair {
                first: self.admitted_actor(random)?,
                second: self.admitted_actor(random)?,
            };
            self.compare_scene(Scene::drawn(random, actors), false)?;
        }
        Ok(())
    }

    // A scene that begins when the first run, of an empty plan, is past its last tick.
    pub(crate) fn compare_last(&mut self, random: &mut Random) -> Result<(), SceneDifference> {
        let actors = Pair {
            first: Actor::empty(),
            second: Actor::empty(),
        };
        let mut scene = Scene::drawn(random, actors);
        let full = Places {
            requests: 64,
            completions: 64,
        };
        scene.places = Pair {
            first: full,
            second: full,
        };
        self.compare_scene(scene, true)
    }
}
