// The method of each plan: a criterion on readings, the marks, or a pile of layers over one of these.
#![tactic(auto)]

ghost use Rattle.std.specs.Prelude.{◌≡◌, pos};
ghost use Rattle.attributes.specs.Marks.{marks as marks_method};
ghost use Rattle.both.specs.Both.{both};
ghost use Rattle.criteria.specs.Known.{known as known_method};
ghost use Rattle.criteria.specs.Mean.{mean as mean_method};
ghost use Rattle.criteria.specs.Unknown.{unknown as unknown_method};
ghost use Rattle.method.specs.Answers.{given};
ghost use Rattle.plans.specs.Piles.{gauged_pile, known_pile, marks_pile, mean_pile, paired_pile, unknown_pile, window_pile};
ghost use Rattle.plans.specs.Settled.{Settled};
ghost use Rattle.through.specs.Passings.{gauged as gauged_method, paired as paired_method, reversed};

use attributes::marks::Marks;
use both::Both;
use criteria::known::Known;
use criteria::mean::Mean;
use criteria::unknown::Unknown;
use fault::Fault;
use inspection::Inspection;
use through::difference::Difference;
use through::gauge::Gauge;
use through::negation::Negation;
use through::{Gauged, Paired, Reversed, Through};
use variables::reading::is_reading;

// A lower and an upper limit: the upper one is a lower limit of the readings with the sign turned.
pub type Window = Both<Inspection<Unknown>, Reversed<Inspection<Unknown>>>;

// Plan K: the deviation is known, and there is a lower limit.
pub fn known(limit: i32, sigma: i32, k: i32) -> Result<Inspection<Known>, Fault>
    ensures { given (λ m. known_method m.criterion.limit m.criterion.sigma m.criterion.k) result ≡ known_pile limit sigma k }
{
    let criterion = Known::new(limit, sigma, k)?;
    Ok(Inspection { criterion })
}

// Plan U: the deviation is not known, and there is a lower limit.
pub fn unknown(limit: i32, k: i32) -> Result<Inspection<Unknown>, Fault>
    ensures { given (λ m. unknown_method m.criterion.limit m.criterion.k) result ≡ unknown_pile limit k }
{
    let criterion = Unknown::new(limit, k)?;
    Ok(Inspection { criterion })
}

// Plan W: the deviation is not known, and there are a lower and an upper limit.
pub fn window(lower: i32, upper: i32, k: i32) -> Result<Window, Fault>
    ensures { given (λ m. both (unknown_method m.first.criterion.limit m.first.criterion.k) (reversed (unknown_method m.second.below.criterion.limit m.second.below.criterion.k))) result ≡ window_pile lower upper k }
{
    if !is_reading(upper) || lower > upper {
        return Err(Fault::PlanConstant(0));
    }
    let first = unknown(lower, k)?;
    let second = Through::over(Negation, unknown(-upper, k)?);
    Ok(Both { first, second })
}

// Plan A: at most so many marks of the sample may not conform.
pub fn marks(most: i32) -> Result<Inspection<Marks>, Fault>
    ensures { given (λ m. marks_method m.criterion.most) result ≡ marks_pile most }
{
    let criterion = Marks::new(most)?;
    Ok(Inspection { criterion })
}

// Plan G: at most so many readings may be outside two limits.
pub fn gauged(low: i32, high: i32, most: i32) -> Result<Gauged<Inspection<Marks>>, Fault>
    ensures { given (λ m. gauged_method m.passing.low m.passing.high (marks_method m.below.criterion.most)) result ≡ gauged_pile low high most }
{
    let gauge = Gauge::new(low, high)?;
    let below = marks(most)?;
    Ok(Through::over(gauge, below))
}

// Plan T: the mean of n readings.
pub fn mean(n: i32, mean: i32) -> Result<Inspection<Mean>, Fault>
    ensures { given (λ m. mean_method m.criterion.n m.criterion.mean) result ≡ mean_pile n mean }
{
    let criterion = Mean::new(n, mean)?;
    Ok(Inspection { criterion })
}

// Plan V: the mean of the differences of n pairs, which is held to 0.
pub fn paired(n: i32) -> Result<Paired<Inspection<Mean>>, Fault>
    ensures { given (λ m. paired_method (mean_method m.below.criterion.n m.below.criterion.mean)) result ≡ paired_pile n }
{
    let below = mean(n, 0)?;
    Ok(Through::over(Difference, below))
}

// The settled examples hold of the plans' definitions.
pub fn settled_examples_hold() -> bool
    ensures { Settled }
{
    true
}
