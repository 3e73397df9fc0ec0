// Why a call on a run is refused.
ghost use Rattle.std.specs.Prelude.{◌≡◌};
ghost use Rattle.run.specs.Answers.{refusal_number};

// A refusal, by its number.
#[derive(Clone, Copy, Debug, PartialEq, Eq)]
pub enum RunRefusal {
    // no such line, or one of the wrong sort for the call
    Line = 7,
    // an amount of 0 or above 65,535
    Amount = 8,
    // the requests' queue is full
    Requests = 14,
    // the completions' queue is full
    Completions = 15,
    // the last time is reached
    Time = 16,
    // no job to finish
    Job = 17,
}

impl RunRefusal {
    pub fn number(self) -> u32
        ensures { result ≡ refusal_number self }
    {
        self as u32
    }
}

impl From<RunRefusal> for u32 {
    ghost from_gives = { λ refusal n. n ≡ refusal_number refusal };

    fn from(refusal: RunRefusal) -> u32 {
        refusal.number()
    }
}
