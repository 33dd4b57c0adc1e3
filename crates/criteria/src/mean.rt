// The criterion of the mean: its constants.
ghost use Rattle.std.specs.Prelude.{◌≡◌, true, pos};
ghost use Rattle.method.specs.Answers.{given};
ghost use Rattle.criteria.specs.Mean.{constants, newly};

use fault::Fault;
use variables::reading::is_reading;

pub mod judging;

// The fewest readings that the criterion is made for.
const FEWEST: i32 = 2;

// The most readings that the criterion is made for.
const MOST: i32 = 21;

// The number of readings, and the mean that they are held to.
#[derive(Clone, Copy)]
pub struct Mean {
    n: u32,
    mean: i32,
    ghost ok: { constants (pos n) mean ≡ true },
}

impl Mean {
    pub fn new(n: i32, mean: i32) -> Result<Mean, Fault>
        ensures { given (λ m. (m.n, m.mean)) result ≡ newly n mean }
    {
        if is_reading(mean) && (FEWEST..=MOST).contains(&n) {
            let n = n.unsigned_abs();
            Ok(Mean { n, mean })
        } else {
            Err(Fault::PlanConstant(0))
        }
    }
}
