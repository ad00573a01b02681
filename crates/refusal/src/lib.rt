// Why a call is refused, in the words of docs/RULES.md ("What the desk gets back"), and the lowest of those that
// apply. A call that gives a `Result` ends its tests with `?`, one after another, in the order of their numbers.
#![tactic(auto)]

ghost use Rattle.std.specs.Prelude.{◌≡◌, true, false, MatchResult};
ghost use Rattle.refusal.specs.Refusal.{number_of, no_of};

use std::error::Error;
use std::fmt;

#[derive(Clone, Copy, Debug, PartialEq, Eq)]
pub enum Refusal {
    PlaneCount = 1,
    OnlyLuma = 2,
    Outside = 3,
    Shape = 4,
    Differ = 5,
    ShortInput = 6,
    ShortOutput = 7,
    Colour = 8,
    TooManyFrames = 9,
    TooFarAhead = 10,
}

impl Refusal {
    pub fn number(self) -> u8
        ensures { result ≡ number_of self }
    {
        self as u8
    }

    // One test: `Ok` where it passes.
    pub fn unless(self, passes: bool) -> Result<(), Refusal>
        ensures { MatchResult result (λ _. passes ≡ true) (λ refused. (passes ≡ false) × (refused ≡ self)) }
    {
        if passes { Ok(()) } else { Err(self) }
    }
}

impl fmt::Display for Refusal {
    ghost use Rattle.std.specs.Prelude.{Some};
    ghost use Rattle.refusal.specs.Refusal.{text_of};

    ghost output = { λ refused. Some (text_of refused) };

    fn fmt<W: fmt::Write>(&self, f: &mut fmt::Formatter<W>) -> fmt::Result {
        f.write_str(match self {
            Refusal::PlaneCount => "readback has no plane, or more than 3",
            Refusal::OnlyLuma => "readback has only luma",
            Refusal::Outside => "a code names nothing, or a coordinate is outside",
            Refusal::Shape => "a shape, or an RGBA width or height, is outside its bounds",
            Refusal::Differ => "planes that must agree differ",
            Refusal::ShortInput => "a lent input is shorter than its shape needs",
            Refusal::ShortOutput => "a lent output or store is too short for what the call writes",
            Refusal::Colour => "a colour number or sample is outside its range or a NaN",
            Refusal::TooManyFrames => "the detector has taken 4,000,000,000 frames",
            Refusal::TooFarAhead => "more than 1,000,000 frames ahead",
        })
    }
}

impl Error for Refusal {}

// What a host is told: 0 for done.
pub fn told(answer: Result<(), Refusal>) -> u8
    ensures { result ≡ no_of answer }
{
    match answer {
        Ok(()) => 0,
        Err(refusal) => refusal.number(),
    }
}
