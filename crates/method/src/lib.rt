// What every method of inspection has: readings, a tally of them, and a verdict from the tally.
#![tactic(auto)]

ghost use Rattle.std.specs.Prelude.{◌≡◌, Bool, []};
ghost use Rattle.method.specs.Answers.{entered, given, joined};
ghost use Rattle.method.specs.Meaning.{Decides, Laws, Made, Meaning};
ghost use Rattle.method.specs.Plans.{planned};

pub mod verdict;

use fault::Fault;
use verdict::Verdict;

// The most readings that a plan asks for, and that a tally holds.
pub const MOST_PLANNED: u32 = 50;

// Whether n readings may be planned for a sample.
pub fn is_planned(n: i32) -> bool
    ensures { result ≡ planned n }
{
    (1..=MOST_PLANNED as i32).contains(&n)
}

pub trait Method {
    type Reading: Copy;

    type Tally: Copy;

    type Numbers: Copy;

    // what the method means
    ghost meaning: { Self → Meaning Self.Reading Self.Numbers };

    ghost laws: { (m : Self) → Laws (meaning m) };

    // the plain numbers of a tally
    ghost of: { Self.Tally → Self.Numbers };

    // whether some tally gives the numbers
    ghost stands: { Self.Numbers → Bool };

    // The plain numbers of a tally.
    fn numbers(&self, t: Self::Tally) -> Self::Numbers
        ensures { result ≡ of t };

    // The tally that gives the numbers, where some tally does.
    fn tally(&self, x: Self::Numbers) -> Option<Self::Tally>
        ensures { Made of x result };

    // The tally of no readings.
    fn blank(&self) -> Self::Tally
        ensures { of result ≡ (meaning self.now).total [] };

    // The tally with one more reading.
    fn enter(&self, t: Self::Tally, r: Self::Reading) -> Result<Self::Tally, Fault>
        ensures { given of result ≡ entered (meaning self.now) (of t) r };

    // Two tallies as one.
    fn join(&self, t: Self::Tally, u: Self::Tally) -> Result<Self::Tally, Fault>
        ensures { given of result ≡ joined (meaning self.now) (of t) (of u) };

    // Whether the reading may be entered.
    fn takes(&self, r: Self::Reading) -> bool
        ensures { result ≡ (meaning self.now).takes r };

    // Whether n readings may be planned.
    fn allows(&self, n: u32) -> bool
        ensures { result ≡ (meaning self.now).allows n };

    // How many readings were entered.
    fn count(&self, t: Self::Tally) -> u32
        ensures { result ≡ (meaning self.now).count (of t) };

    // What is said of the lot that the readings were taken from.
    fn verdict(&self, t: Self::Tally) -> Verdict
        ensures { result ≡ (meaning self.now).verdict (of t) };

    // `stands` tells it; behind the functions a ghost member is a law, above them it would be data
    ghost decided: { (x : Self.Numbers) → Decides (stands x) ((t : Self.Tally) × (of t ≡ x)) };
}
