// The second calculation: where a list of readings lies, worked out from the list itself.
use crate::error::TrialError;
use crate::exact::{minus, plus, square, times};
use method::verdict::Verdict;
use std::cmp::Ordering;

const MILLION: i128 = 1_000_000;

// Student's fractiles for 2 readings, for 3 and so on, in thousandths.
const STUDENT: [i128; 20] = [
    6314, 2920, 2353, 2132, 2015, 1943, 1895, 1860, 1833, 1812, 1796, 1782, 1771, 1761, 1753, 1746,
    1740, 1734, 1729, 1725,
];

// Where a list lies to the limit of its plan; the worse side stands first.
#[derive(Clone, Copy, PartialEq, Eq, PartialOrd, Ord)]
pub enum Side {
    Outside,
    OnLimit,
    Within,
}

impl Side {
    // A value equal to the limit is permissible. By cases of its own: the conversion from a truth value is what the
    // verdicts that are held to this one are made by.
    pub fn verdict(self) -> Verdict {
        match self {
            Side::Outside => Verdict::NotAccepted,
            Side::OnLimit | Side::Within => Verdict::Accepted,
        }
    }
}

// Where a number lies that may be at most the limit.
fn held_to(number: i128, limit: i128) -> Side {
    match number.cmp(&limit) {
        Ordering::Less => Side::Within,
        Ordering::Equal => Side::OnLimit,
        Ordering::Greater => Side::Outside,
    }
}

fn count(readings: &[i32]) -> i128 {
    readings.len() as i128
}

// The deviations from the origin, added one by one.
fn deviations(readings: &[i32], origin: i32) -> Result<i128, TrialError> {
    readings.iter().try_fold(0, |sum, x| {
        plus(sum, minus(i128::from(*x), i128::from(origin))?)
    })
}

// The sum of the squares of N × x - S, for each reading x.
fn spread(readings: &[i32]) -> Result<i128, TrialError> {
    let n = count(readings);
    let s = deviations(readings, 0)?;
    readings.iter().try_fold(0, |sum, x| {
        let off = minus(times(n, i128::from(*x))?, s)?;
        plus(sum, square(off)?)
    })
}

// 1,000,000 × (N - 1) × N × the square of the distance.
fn weight(n: i128, distance: i128) -> Result<i128, TrialError> {
    times(times(MILLION, minus(n, 1)?)?, times(n, square(distance)?)?)
}

// Where the readings lie to a limit that their sum is clear of by the distance.
fn clear(readings: &[i32], distance: i128, k: i32) -> Result<Side, TrialError> {
    if distance < 0 {
        return Ok(Side::Outside);
    }
    let n = count(readings);
    let needed = times(square(i128::from(k))?, times(n, spread(readings)?)?)?;
    Ok(held_to(needed, weight(n, distance)?))
}

// Plan K: 1000 × (x - L) - K × sigma, added one by one, is at least 0.
pub fn known(readings: &[i32], limit: i32, sigma: i32, k: i32) -> Result<Side, TrialError> {
    let needed = times(i128::from(k), i128::from(sigma))?;
    let sum = readings.iter().try_fold(0, |sum, x| {
        let above = times(1000, minus(i128::from(*x), i128::from(limit))?)?;
        plus(sum, minus(above, needed)?)
    })?;
    Ok(held_to(0, sum))
}

// Plan U.
pub fn unknown(readings: &[i32], limit: i32, k: i32) -> Result<Side, TrialError> {
    clear(readings, deviations(readings, limit)?, k)
}

// Plan W: the upper limit as N × U - S.
pub fn window(readings: &[i32], lower: i32, upper: i32, k: i32) -> Result<Side, TrialError> {
    let below = minus(
        times(count(readings), i128::from(upper))?,
        deviations(readings, 0)?,
    )?;
    let high = clear(readings, below, k)?;
    Ok(unknown(readings, lower, k)?.min(high))
}

// Plan A: the marks that do not conform are counted.
pub fn marks(marks: &[bool], most: i32) -> Side {
    let amiss = marks.iter().filter(|conforms| !**conforms).count();
    held_to(amiss as i128, i128::from(most))
}

// Plan G: the readings below the low or above the high limit are counted.
pub fn gauged(readings: &[i32], low: i32, high: i32, most: i32) -> Side {
    let amiss = readings
        .iter()
        .filter(|x| !(low..=high).contains(*x))
        .count();
    held_to(amiss as i128, i128::from(most))
}

// Student's fractile for n readings, in thousandths.
fn student(n: usize) -> Option<i128> {
    STUDENT.get(n.checked_sub(2)?).copied()
}

// Plan T.
pub fn mean(readings: &[i32], expected: i32) -> Result<Side, TrialError> {
    let distance = deviations(readings, expected)?;
    let t = student(readings.len()).ok_or(TrialError::NoFractile)?;
    let most = times(square(t)?, spread(readings)?)?;
    Ok(held_to(weight(count(readings), distance)?, most))
}
