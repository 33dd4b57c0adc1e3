// The criterion of known deviation: its constants.
ghost use Rattle.std.specs.Prelude.{◌≡◌, true};
ghost use Rattle.method.specs.Answers.{given};
ghost use Rattle.criteria.specs.Known.{constants, newly};

use crate::constants::{is_deviation, is_factor};
use fault::Fault;
use variables::reading::is_reading;

pub mod judging;

// A lower limit, the deviation, and a factor in thousandths.
#[derive(Clone, Copy)]
pub struct Known {
    limit: i32,
    sigma: i32,
    k: i32,
    ghost ok: { constants limit sigma k ≡ true },
}

impl Known {
    pub fn new(limit: i32, sigma: i32, k: i32) -> Result<Known, Fault>
        ensures { given (λ m. (m.limit, m.sigma, m.k)) result ≡ newly limit sigma k }
    {
        if is_reading(limit) && is_deviation(sigma) && is_factor(k) {
            Ok(Known { limit, sigma, k })
        } else {
            Err(Fault::PlanConstant(0))
        }
    }
}
