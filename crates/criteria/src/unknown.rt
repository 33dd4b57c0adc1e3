// The criterion of unknown deviation: its constants.
ghost use Rattle.std.specs.Prelude.{◌≡◌, true};
ghost use Rattle.method.specs.Answers.{given};
ghost use Rattle.criteria.specs.Unknown.{constants, newly};

use crate::constants::is_factor;
use fault::Fault;
use variables::reading::is_reading;

pub mod judging;

// A lower limit, and a factor in thousandths.
#[derive(Clone, Copy)]
pub struct Unknown {
    limit: i32,
    k: i32,
    ghost ok: { constants limit k ≡ true },
}

impl Unknown {
    pub fn new(limit: i32, k: i32) -> Result<Unknown, Fault>
        ensures { given (λ m. (m.limit, m.k)) result ≡ newly limit k }
    {
        if is_reading(limit) && is_factor(k) {
            Ok(Unknown { limit, k })
        } else {
            Err(Fault::PlanConstant(0))
        }
    }
}
