// The criterion of unknown deviation: its verdict.
ghost use Rattle.std.specs.Prelude.{◌≡◌, ◌≤◌, pos, ◌*ℤ◌, unsigned_abs};
ghost use Rattle.criteria.specs.Unknown.{Tells, allowed, judged};
ghost use Rattle.variables.specs.Sums.{spread};

use super::Unknown;
use crate::products::{above_limit, million_squares, spread_of, times};
use inspection::criterion::Criterion;
use inspection::tallying::Tallying;
use method::MOST_PLANNED;
use method::verdict::Verdict;
use variables::tally::Tally;

// The fewest readings that may be planned.
const FEWEST: u32 = 2;

// K × K × N × D
fn scatter(k: i32, t: Tally) -> i64
    requires { unsigned_abs k ≤ 4000 }
    ensures { result ≡ k *ℤ k *ℤ pos t.sums.n *ℤ spread t.sums }
{
    let k = i64::from(k);
    let square = times::<4_000, 4_000>(k, k);
    let all = times::<16_000_000, 50>(square, i64::from(t.count()));
    times::<800_000_000, 10_000_000_000>(all, spread_of(t))
}

impl Unknown {
    // What is said of the lot that the readings were taken from. It tells more than a criterion's verdict has to.
    pub fn judge(self, t: Tally) -> Verdict
        ensures value { result ≡ judged self.limit self.k t.sums }
        ensures exact { Tells result self.limit self.k t.sums }
    {
        let a = above_limit(self.limit, t);
        if a.is_negative() {
            return Verdict::NotAccepted;
        }
        Verdict::at_most(scatter(self.k, t), million_squares(t, a))
    }
}

impl Criterion for Unknown {
    type Tally = Tally;

    ghost allowed = { λ _. allowed };

    ghost judged = { λ m. judged m.limit m.k };

    fn allows(&self, n: u32) -> bool {
        (FEWEST..=MOST_PLANNED).contains(&n)
    }

    fn verdict(&self, t: Tally) -> Verdict {
        self.judge(t)
    }
}
