// What a method decides by.
ghost use Rattle.std.specs.Prelude.{◌≡◌, ℕ, Bool};
ghost use Rattle.method.specs.declared.verdict.Verdict.{Verdict};

use crate::tallying::Tallying;
use method::verdict::Verdict;

pub trait Criterion {
    type Tally: Tallying;

    // which numbers of readings may be planned
    ghost allowed: { Self → ℕ → Bool };

    // what is said of a lot whose readings have these numbers
    ghost judged: { Self → Self.Tally.Numbers → Verdict };

    // Whether n readings may be planned.
    fn allows(&self, n: u32) -> bool
        ensures { result ≡ allowed self.now n };

    // What is said of the lot that the readings were taken from.
    fn verdict(&self, t: Self::Tally) -> Verdict
        ensures { result ≡ judged self.now (Self.Tally.of t) };
}
