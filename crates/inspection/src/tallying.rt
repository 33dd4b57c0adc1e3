// What every kind of tally does: it is made, entered into and joined.
ghost use Rattle.std.specs.Prelude.{◌≡◌, ℕ, Bool, []};
ghost use Rattle.inspection.specs.Tallied.{Tallied, inspected, lone, noted, pooled};
ghost use Rattle.method.specs.Answers.{given};
ghost use Rattle.method.specs.Meaning.{Decides, Laws, Made};
ghost use Rattle.method.specs.declared.verdict.Verdict.{Verdict};

use fault::Fault;

pub trait Tallying: Copy {
    type Reading: Copy;

    type Numbers: Copy;

    // what is kept of lists of readings
    ghost kept: { Tallied Self.Reading Self.Numbers };

    // they hold whatever a method allows and says
    ghost laws: { (a : ℕ → Bool) (j : Self.Numbers → Verdict) → Laws (inspected kept a j) };

    // the plain numbers of a tally
    ghost of: { Self → Self.Numbers };

    // whether some tally gives the numbers
    ghost stands: { Self.Numbers → Bool };

    // The numbers of the readings that were entered.
    fn numbers(self) -> Self::Numbers
        ensures { result ≡ of self };

    // The tally that gives the numbers, where some tally does.
    fn made(x: Self::Numbers) -> Option<Self>
        ensures { Made of x result };

    // The tally of no readings.
    fn blank() -> Self
        ensures { of result ≡ kept.total [] };

    // Whether the reading may be entered.
    fn takes(r: Self::Reading) -> bool
        ensures { result ≡ kept.takes r };

    // The tally of one reading.
    fn single(r: Self::Reading) -> Result<Self, Fault>
        ensures { given of result ≡ lone kept r };

    // Two tallies as one.
    fn join(self, other: Self) -> Result<Self, Fault>
        ensures { given of result ≡ pooled kept (of self) (of other) };

    // The tally with one more reading.
    fn enter(self, r: Self::Reading) -> Result<Self, Fault>
        ensures { given of result ≡ noted kept (of self) r }
    {
        self.join(Self::single(r)?)
    }

    // How many readings were entered.
    fn count(self) -> u32
        ensures { result ≡ kept.count (of self) };

    // `stands` tells it; behind the functions a ghost member is a law, above them it would be data
    ghost decided: { (x : Self.Numbers) → Decides (stands x) ((t : Self) × (of t ≡ x)) };
}
