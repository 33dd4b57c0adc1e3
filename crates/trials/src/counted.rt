// Lots of the plans that count: A and G.
use crate::agreement::{agreed, agreed_readings};
use crate::chance::Chance;
use crate::error::TrialError;
use crate::second::{self, Side};

// How many readings there are, how many of them do not conform, and how many may be so.
#[derive(Clone, Copy)]
struct Share {
    n: usize,
    amiss: usize,
    most: i32,
}

// Any share, one on the limit, or one beyond it.
fn draw_share(chance: &mut Chance) -> Share {
    let n = chance.below(50) + 1;
    let most = chance.below(n);
    let amiss = match chance.below(3) {
        0 => most,
        1 => most + 1,
        _ => chance.below(n + 1),
    };
    Share {
        n,
        amiss,
        most: most as i32,
    }
}

pub fn marks(chance: &mut Chance) -> Result<Side, TrialError> {
    let Share { n, amiss, most } = draw_share(chance);
    let slips: Vec<bool> = (0..n).map(|i| i >= amiss).collect(chance.heap())?;
    let side = second::marks(&slips, most);
    agreed(
        plans::marks(most)?,
        slips,
        None,
        side,
        |chance: &mut Chance| chance.below(2) == 0,
        chance,
    )
}

// A reading from low to high, at one of the two about as often as between them.
fn inside(chance: &mut Chance, low: i32, high: i32) -> i32 {
    match chance.below(4) {
        0 => low,
        1 => high,
        _ => chance.between(low, high),
    }
}

// A reading below low or above high, beside one of the two about as often as far from them.
fn outside(chance: &mut Chance, low: i32, high: i32) -> i32 {
    let (under, over) = (low.saturating_sub(1), high.saturating_add(1));
    match chance.below(4) {
        0 => under,
        1 => over,
        2 => chance.between(-2000, under),
        _ => chance.between(over, 2000),
    }
}

pub fn gauged(chance: &mut Chance) -> Result<Side, TrialError> {
    let Share { n, amiss, most } = draw_share(chance);
    let low = chance.between(-1999, 1999);
    let high = chance.between(low, 1999);
    let heap = chance.heap();
    let readings: Vec<i32> = (0..n)
        .map(|i| if i < amiss {
            outside(chance, low, high)
        } else {
            inside(chance, low, high)
        })
        .collect(heap)?;
    let side = second::gauged(&readings, low, high, most);
    agreed_readings(plans::gauged(low, high, most)?, readings, side, chance)
}
