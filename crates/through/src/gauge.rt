// Passes on whether each reading conforms: whether it is from a low to a high limit.
ghost use Rattle.std.specs.Prelude.{◌≡◌, true};
ghost use Rattle.method.specs.Answers.{given};
ghost use Rattle.through.specs.Passings.{conforms, constants, newly};
ghost use Rattle.variables.specs.Sums.{reading};

use crate::passing::Passing;
use fault::Fault;
use variables::reading::is_reading;

// A low and a high limit.
#[derive(Clone, Copy)]
pub struct Gauge {
    low: i32,
    high: i32,
    ghost ok: { constants low high ≡ true },
}

impl Gauge {
    pub fn new(low: i32, high: i32) -> Result<Gauge, Fault>
        ensures { given (λ g. (g.low, g.high)) result ≡ newly low high }
    {
        if is_reading(low) && is_reading(high) && low <= high {
            Ok(Gauge { low, high })
        } else {
            Err(Fault::PlanConstant(0))
        }
    }
}

impl Passing for Gauge {
    type Above = i32;

    type Below = bool;

    ghost fits = { λ _. reading };

    ghost passed = { λ g. conforms g.low g.high };

    fn pass(&self, r: i32) -> Option<bool> {
        // The two comparisons, and no range: with its contains the clause stays open.
        is_reading(r).then_some(self.low <= r && r <= self.high)
    }
}
