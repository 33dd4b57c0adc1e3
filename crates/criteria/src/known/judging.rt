// The criterion of known deviation: its verdict.
ghost use Rattle.std.specs.Prelude.{◌≡◌, ◌≤◌, pos, ◌*ℤ◌, unsigned_abs};
ghost use Rattle.criteria.specs.Known.{Tells, allowed, judged};

use super::Known;
use crate::products::{above_limit, times};
use inspection::criterion::Criterion;
use inspection::tallying::Tallying;
use method::MOST_PLANNED;
use method::verdict::Verdict;
use variables::tally::Tally;

// The fewest readings that may be planned.
const FEWEST: u32 = 1;

// K × σ × N
fn scatter(k: i32, sigma: i32, t: Tally) -> i64
    requires factor { unsigned_abs k ≤ 4000 }
    requires deviation { unsigned_abs sigma ≤ 2000 }
    ensures { result ≡ k *ℤ sigma *ℤ pos t.sums.n }
{
    let each = times::<4_000, 2_000>(i64::from(k), i64::from(sigma));
    times::<8_000_000, 50>(each, i64::from(t.count()))
}

impl Known {
    // What is said of the lot that the readings were taken from. It tells more than a criterion's verdict has to.
    pub fn judge(self, t: Tally) -> Verdict
        ensures value { result ≡ judged self.limit self.sigma self.k t.sums }
        ensures exact { Tells result self.limit self.sigma self.k t.sums }
    {
        let a = above_limit(self.limit, t);
        let margin = times::<1_000, 200_000>(1_000, a);
        Verdict::at_most(scatter(self.k, self.sigma, t), margin)
    }
}

impl Criterion for Known {
    type Tally = Tally;

    ghost allowed = { λ _. allowed };

    ghost judged = { λ m. judged m.limit m.sigma m.k };

    fn allows(&self, n: u32) -> bool {
        (FEWEST..=MOST_PLANNED).contains(&n)
    }

    fn verdict(&self, t: Tally) -> Verdict {
        self.judge(t)
    }
}
