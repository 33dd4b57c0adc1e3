// Two methods of inspection on one kind of reading, as one.
#![tactic(auto)]

ghost use Rattle.std.specs.Prelude.{◌&&◌};
ghost use Rattle.both.specs.Both.{both, both_laws};
ghost use Rattle.both.specs.Tallies.{both_decided};

use fault::Fault;
use method::Method;
use method::verdict::Verdict;

// Says yes when both methods do.
#[derive(Clone, Copy)]
pub struct Both<A, B> {
    pub first: A,
    pub second: B,
}

impl<A: Method, B: Method<Reading = A::Reading>> Method for Both<A, B> {
    type Reading = A::Reading;

    type Tally = (A::Tally, B::Tally);

    type Numbers = (A::Numbers, B::Numbers);

    ghost meaning = { λ m. both (A.Method.meaning m.first) (B.Method.meaning m.second) };

    ghost laws = { λ m. both_laws (A.Method.meaning m.first) (B.Method.meaning m.second) (A.Method.laws m.first) (B.Method.laws m.second) };

    ghost of = { λ t. (A.Method.of t.0, B.Method.of t.1) };

    ghost stands = { λ x. A.Method.stands x.0 && B.Method.stands x.1 };

    ghost decided = { λ x.
        both_decided A.Method.of B.Method.of x (A.Method.stands x.0) (B.Method.stands x.1) (A.Method.decided x.0)
        (B.Method.decided x.1) };

    fn numbers(&self, t: (A::Tally, B::Tally)) -> (A::Numbers, B::Numbers) {
        (self.first.numbers(t.0), self.second.numbers(t.1))
    }

    fn tally(&self, x: (A::Numbers, B::Numbers)) -> Option<(A::Tally, B::Tally)> {
        Some((self.first.tally(x.0)?, self.second.tally(x.1)?))
    }

    fn blank(&self) -> (A::Tally, B::Tally) {
        (self.first.blank(), self.second.blank())
    }

    // Neither part is asked to enter a reading that the other does not take.
    fn enter(&self, t: (A::Tally, B::Tally), r: A::Reading) -> Result<(A::Tally, B::Tally), Fault> {
        if self.takes(r) {
            Ok((self.first.enter(t.0, r)?, self.second.enter(t.1, r)?))
        } else {
            Err(Fault::ReadingNotTaken(0))
        }
    }

    fn join(
        &self,
        t: (A::Tally, B::Tally),
        u: (A::Tally, B::Tally),
    ) -> Result<(A::Tally, B::Tally), Fault> {
        Ok((self.first.join(t.0, u.0)?, self.second.join(t.1, u.1)?))
    }

    fn takes(&self, r: A::Reading) -> bool {
        self.first.takes(r) && self.second.takes(r)
    }

    fn allows(&self, n: u32) -> bool {
        self.first.allows(n) && self.second.allows(n)
    }

    // The larger of the two counts.
    fn count(&self, t: (A::Tally, B::Tally)) -> u32 {
        self.first.count(t.0).max(self.second.count(t.1))
    }

    fn verdict(&self, t: (A::Tally, B::Tally)) -> Verdict {
        self.first.verdict(t.0).lower(self.second.verdict(t.1))
    }
}
