// The criterion of marks: its constant, and its verdict.
ghost use Rattle.std.specs.Prelude.{◌≡◌, ◌≤◌};
ghost use Rattle.method.specs.Answers.{given};
ghost use Rattle.attributes.specs.Marks.{Tells, allowed, judged, newly};

use crate::tally::MarkTally;
use fault::Fault;
use inspection::criterion::Criterion;
use inspection::tallying::Tallying;
use method::MOST_PLANNED;
use method::verdict::Verdict;

// The greatest number that a plan may let not conform.
const GREATEST: i32 = 49;

// Ac, the most units of the sample that may not conform.
#[derive(Clone, Copy)]
pub struct Marks {
    most: u32,
    ghost ok: { most ≤ 49 },
}

impl Marks {
    pub fn new(most: i32) -> Result<Marks, Fault>
        ensures { given (λ m. m.most) result ≡ newly most }
    {
        if (0..=GREATEST).contains(&most) {
            let most = most.unsigned_abs();
            Ok(Marks { most })
        } else {
            Err(Fault::PlanConstant(0))
        }
    }

    // What is said of the lot that the marks were taken from. It tells more than a criterion's verdict has to.
    pub fn judge(self, t: MarkTally) -> Verdict
        ensures value { result ≡ judged self.most t.counts }
        ensures exact { Tells result self.most t.counts }
    {
        Verdict::at_most(i64::from(t.numbers().z), i64::from(self.most))
    }
}

impl Criterion for Marks {
    type Tally = MarkTally;

    ghost allowed = { λ m. allowed m.most };

    ghost judged = { λ m. judged m.most };

    fn allows(&self, n: u32) -> bool {
        self.most < n && n <= MOST_PLANNED
    }

    fn verdict(&self, t: MarkTally) -> Verdict {
        self.judge(t)
    }
}
