// Inspection by a criterion: what every kind of tally does, what a criterion says, and the method that they make.
#![tactic(auto)]

ghost use Rattle.inspection.specs.Tallied.{inspected};

pub mod criterion;
pub mod tallying;

use criterion::Criterion;
use fault::Fault;
use method::Method;
use method::verdict::Verdict;
use tallying::Tallying;

// The method that keeps the criterion's tallies, and decides by it.
#[derive(Clone, Copy)]
pub struct Inspection<C> {
    pub criterion: C,
}

impl<C: Criterion> Method for Inspection<C> {
    type Reading = <C::Tally as Tallying>::Reading;

    type Tally = C::Tally;

    type Numbers = <C::Tally as Tallying>::Numbers;

    ghost meaning = { λ m. inspected C.Tally.kept (C.Criterion.allowed m.criterion) (C.Criterion.judged m.criterion) };

    ghost laws = { λ m. C.Tally.laws (C.Criterion.allowed m.criterion) (C.Criterion.judged m.criterion) };

    ghost of = { C.Tally.of };

    ghost stands = { C.Tally.stands };

    ghost decided = { C.Tally.decided };

    fn numbers(&self, t: C::Tally) -> <C::Tally as Tallying>::Numbers {
        t.numbers()
    }

    fn tally(&self, x: <C::Tally as Tallying>::Numbers) -> Option<C::Tally> {
        C::Tally::made(x)
    }

    fn blank(&self) -> C::Tally {
        C::Tally::blank()
    }

    fn enter(&self, t: C::Tally, r: <C::Tally as Tallying>::Reading) -> Result<C::Tally, Fault> {
        t.enter(r)
    }

    fn join(&self, t: C::Tally, u: C::Tally) -> Result<C::Tally, Fault> {
        t.join(u)
    }

    fn takes(&self, r: <C::Tally as Tallying>::Reading) -> bool {
        C::Tally::takes(r)
    }

    fn allows(&self, n: u32) -> bool {
        self.criterion.allows(n)
    }

    fn count(&self, t: C::Tally) -> u32 {
        t.count()
    }

    fn verdict(&self, t: C::Tally) -> Verdict {
        self.criterion.verdict(t)
    }
}
