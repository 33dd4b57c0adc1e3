// Holds what the bench says of a lot to what the second calculation says.
use crate::chance::Chance;
use crate::error::TrialError;
use crate::second::Side;
use crate::working::carried_out;
use method::Method;

// A reading that no method takes.
const BEYOND: i32 = 2_001;

// Where a lot lies, if the bench agrees. Wrong slips are added behind those that are to stand.
pub(crate) fn agreed<M: Method + Copy, F: Fn(&mut Chance) -> M::Reading>(
    method: M,
    mut slips: Vec<M::Reading>,
    beyond: Option<M::Reading>,
    side: Side,
    wrong: F,
    chance: &mut Chance,
) -> Result<Side, TrialError>
    requires { F.IsAlwaysCallable wrong }
{
    let n = slips.len();
    for _ in 0..chance.below(n / 4 + 3) {
        slips.push(wrong(chance))?;
    }
    let bench = carried_out(method, n, &slips, beyond, chance)?;
    let second = side.verdict();
    if bench == second {
        Ok(side)
    } else {
        Err(TrialError::Verdict { bench, second })
    }
}

// The same for a lot of readings.
pub fn agreed_readings<M: Method<Reading = i32> + Copy>(
    method: M,
    readings: Vec<i32>,
    side: Side,
    chance: &mut Chance,
) -> Result<Side, TrialError> {
    agreed(
        method,
        readings,
        Some(BEYOND),
        side,
        |chance: &mut Chance| chance.between(-2000, 2000),
        chance,
    )
}
