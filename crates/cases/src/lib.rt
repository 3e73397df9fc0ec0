// Cases worked out by hand, proved of the definitions.
#![tactic(auto)]

ghost use Rattle.std.specs.Prelude.{◌≡◌, length};
ghost use Rattle.std.specs.List.{AllByRecursion};
ghost use Rattle.cases.specs.Case.{Holds};
ghost use Rattle.cases.specs.Worked.{cases};

// How many cases there are; every one of them holds.
pub fn worked_cases() -> usize
    ensures number { result ≡ length cases }
    ensures hold { AllByRecursion Holds cases }
{
    22
}
