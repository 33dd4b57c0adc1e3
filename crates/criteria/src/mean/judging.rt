// The criterion of the mean: its verdict.
ghost use Rattle.std.specs.Prelude.{◌≡◌, ◌≤◌, pos, ◌*ℤ◌};
ghost use Rattle.criteria.specs.Mean.{Tells, allowed, judged};
ghost use Rattle.variables.specs.Sums.{spread};

use super::Mean;
use crate::products::{above_limit, million_squares, spread_of, times};
use crate::student::fractile;
use inspection::criterion::Criterion;
use method::verdict::Verdict;
use variables::tally::Tally;

// T × T × D
fn scatter(fractile: u32, t: Tally) -> i64
    requires { fractile ≤ 6314 }
    ensures { result ≡ pos fractile *ℤ pos fractile *ℤ spread t.sums }
{
    let fractile = i64::from(fractile);
    let square = times::<6_314, 6_314>(fractile, fractile);
    times::<39_866_596, 10_000_000_000>(square, spread_of(t))
}

impl Mean {
    // What is said of the lot that the readings were taken from. It tells more than a criterion's verdict has to.
    pub fn judge(self, t: Tally) -> Verdict
        ensures value { result ≡ judged self.n self.mean t.sums }
        ensures exact { Tells result self.n self.mean t.sums }
    {
        let m = above_limit(self.mean, t);
        let fractile = fractile(self.n - 1);
        Verdict::at_most(million_squares(t, m), scatter(fractile, t))
    }
}

impl Criterion for Mean {
    type Tally = Tally;

    ghost allowed = { λ m. allowed m.n };

    ghost judged = { λ m. judged m.n m.mean };

    fn allows(&self, n: u32) -> bool {
        n == self.n
    }

    fn verdict(&self, t: Tally) -> Verdict {
        self.judge(t)
    }
}
