// Layers that pass each reading on, in another form, to a method below.
#![tactic(auto)]

ghost use Rattle.std.specs.Prelude.{◌≡◌};
ghost use Rattle.through.specs.Through.{through, through_laws};

pub mod difference;
pub mod gauge;
pub mod negation;
pub mod passing;

use difference::Difference;
use fault::Fault;
use gauge::Gauge;
use method::Method;
use method::verdict::Verdict;
use negation::Negation;
use passing::Passing;

// A way of passing readings on, over a method below.
#[derive(Clone, Copy)]
pub struct Through<F: Passing, M: Method<Reading = F::Below>> {
    pub passing: F,
    pub below: M,
}

// Passes -r on for each reading r.
pub type Reversed<M> = Through<Negation, M>;

// Passes on whether each reading conforms.
pub type Gauged<M> = Through<Gauge, M>;

// Passes on the difference of each pair.
pub type Paired<M> = Through<Difference, M>;

impl<F: Passing, M: Method<Reading = F::Below>> Through<F, M> {
    // Puts a way of passing readings on over a method.
    pub fn over(passing: F, below: M) -> Through<F, M>
        ensures { (result.passing ≡ passing) × (result.below ≡ below) }
    {
        Through { passing, below }
    }
}

impl<F: Passing, M: Method<Reading = F::Below>> Method for Through<F, M> {
    type Reading = F::Above;

    type Tally = M::Tally;

    type Numbers = M::Numbers;

    ghost meaning = { λ m. through (F.Passing.fits m.passing) (F.Passing.passed m.passing) (M.Method.meaning m.below) };

    ghost laws = { λ m. through_laws (F.Passing.fits m.passing) (F.Passing.passed m.passing) (M.Method.meaning m.below) (M.Method.laws m.below) };

    ghost of = { M.Method.of };

    ghost stands = { M.Method.stands };

    ghost decided = { M.Method.decided };

    fn numbers(&self, t: M::Tally) -> M::Numbers {
        self.below.numbers(t)
    }

    fn tally(&self, x: M::Numbers) -> Option<M::Tally> {
        self.below.tally(x)
    }

    fn blank(&self) -> M::Tally {
        self.below.blank()
    }

    fn enter(&self, t: M::Tally, r: F::Above) -> Result<M::Tally, Fault> {
        let passed = self.passing.pass(r).ok_or(Fault::ReadingNotTaken(0))?;
        self.below.enter(t, passed)
    }

    fn join(&self, t: M::Tally, u: M::Tally) -> Result<M::Tally, Fault> {
        self.below.join(t, u)
    }

    fn takes(&self, r: F::Above) -> bool {
        let passed = self.passing.pass(r);
        passed.is_some_and(|x| self.below.takes(x))
    }

    fn allows(&self, n: u32) -> bool {
        self.below.allows(n)
    }

    fn count(&self, t: M::Tally) -> u32 {
        self.below.count(t)
    }

    fn verdict(&self, t: M::Tally) -> Verdict {
        self.below.verdict(t)
    }
}
