// Lots of the plans with limits: K, U and W.
use crate::agreement::agreed_readings;
use crate::chance::Chance;
use crate::error::TrialError;
use crate::patterns::{Lone, at_ends, balanced, nudge, scattered};
use crate::second::{self, Side};
use std::alloc::AllocError;

// The constants of every plan with limits, of which each plan takes its own, and the readings of a lot.
#[derive(Drop)]
struct Lot {
    lower: i32,
    upper: i32,
    sigma: i32,
    k: i32,
    readings: Vec<i32>,
}

// Any constants, and readings from a range of any width.
fn any_lot(chance: &mut Chance) -> Result<Lot, AllocError> {
    let low = chance.between(-2000, 2000);
    let high = chance.between(low, 2000);
    let n = chance.below(49) + 2;
    let upper = chance.between(-1000, 2000);
    Ok(Lot {
        lower: chance.between(-2000, upper),
        upper,
        sigma: chance.between(0, 2000),
        k: chance.between(0, 4000),
        readings: scattered(chance, n, low, high)?,
    })
}

// Readings and limits at the ends of their range.
fn wide_lot(chance: &mut Chance) -> Result<Lot, AllocError> {
    let n = chance.below(49) + 2;
    Ok(Lot {
        lower: chance.sign() * 2000,
        upper: 2000,
        sigma: chance.between(0, 2000),
        k: chance.between(0, 4000),
        readings: at_ends(chance, n)?,
    })
}

// A lot whose mean is above the lower limit by K × sigma / 1000, to about 1.
fn near_known(chance: &mut Chance) -> Result<Lot, AllocError> {
    let lower = chance.between(-1500, 1500);
    let sigma = chance.between(0, 60);
    let k = chance.between(0, 4000);
    let level = lower + k * sigma / 1000;
    let (low, high) = (level.saturating_sub(5), level.saturating_add(5));
    let n = chance.below(50) + 1;
    Ok(Lot {
        lower,
        upper: 2000,
        sigma,
        k,
        readings: scattered(chance, n, low, high)?,
    })
}

// A lot whose mean is above the lower limit by K × sigma / 1000 exactly.
fn known_on_limit(chance: &mut Chance) -> Result<Lot, AllocError> {
    let lower = chance.between(-1500, 1500);
    let steps = chance.between(0, 8);
    let half = chance.between(0, 30);
    let centre = lower + steps * half;
    let n = chance.below(50) + 1;
    let away = chance.between(0, 200);
    Ok(Lot {
        lower,
        upper: 2000,
        sigma: half * 2,
        k: steps * 500,
        readings: balanced(chance.heap(), n, centre, away)?,
    })
}

// An odd number of readings whose deviation is 2 × half, with both limits away from their mean by K times that.
fn window_on_limits(chance: &mut Chance) -> Result<Lot, AllocError> {
    let centre = chance.between(-1500, 1500);
    let steps = chance.between(0, 8);
    let half = chance.between(0, 30);
    let away = steps * half;
    let n = chance.below(24) * 2 + 3;
    Ok(Lot {
        lower: centre - away,
        upper: centre + away,
        sigma: 0,
        k: steps * 500,
        readings: balanced(chance.heap(), n, centre, half * 2)?,
    })
}

// The same with K more or less by one, while K stays in its range.
fn beside_limits(chance: &mut Chance) -> Result<Lot, AllocError> {
    let mut lot = window_on_limits(chance)?;
    lot.k = lot.k.saturating_add(chance.sign()).clamp(0, 4000);
    Ok(lot)
}

// A list with a lone reading, and the K at which it is on a lower limit of 0. Its deviation is a whole number, since
// n is a square.
fn lone_on_limit(chance: &mut Chance) -> (Lone, i32) {
    let (n, root) = match chance.below(3) {
        0 => (4, 2),
        1 => (16, 4),
        _ => (25, 5),
    };
    let scale = chance.between(1, 40);
    let sign = chance.sign();
    let steps = if sign > 0 {
        chance.between(0, 3)
    } else {
        chance.between(1, 4)
    };
    let lone = Lone {
        n,
        level: scale.saturating_mul(steps),
        apart: scale.saturating_mul(root).saturating_mul(sign),
    };
    let k = steps
        .saturating_mul(1000)
        .saturating_add(sign.saturating_mul(1000 / root));
    (lone, k)
}

// A lot with a lone reading, on a limit from one number to another: the lower one, or the upper one where the sign is
// turned.
fn on_limit(chance: &mut Chance, from: i32, upto: i32, sign: i32) -> Result<Lot, AllocError> {
    let (lone, k) = lone_on_limit(chance);
    let limit = chance.between(from, upto);
    let other = limit.saturating_add(sign.saturating_mul(1500));
    Ok(Lot {
        lower: limit.min(other),
        upper: limit.max(other),
        sigma: 0,
        k,
        readings: lone.readings(chance.heap(), limit, sign)?,
    })
}

fn on_lower(chance: &mut Chance) -> Result<Lot, AllocError> {
    on_limit(chance, -1500, 500, 1)
}

fn on_upper(chance: &mut Chance) -> Result<Lot, AllocError> {
    on_limit(chance, -500, 1500, -1)
}

// The lot with one reading moved by 1.
fn nudged(mut lot: Lot, chance: &mut Chance) -> Lot {
    nudge(&mut lot.readings, chance);
    lot
}

// The ways to draw a lot are arms: a table of functions would have to keep of each that it may be called.
fn draw_known(chance: &mut Chance) -> Result<Lot, AllocError> {
    match chance.below(5) {
        0 => any_lot(chance),
        1 => near_known(chance),
        2 => known_on_limit(chance),
        3 => Ok(nudged(known_on_limit(chance)?, chance)),
        _ => wide_lot(chance),
    }
}

fn draw_unknown(chance: &mut Chance) -> Result<Lot, AllocError> {
    match chance.below(6) {
        0 => any_lot(chance),
        1 => beside_limits(chance),
        2 => window_on_limits(chance),
        3 => on_lower(chance),
        4 => Ok(nudged(on_lower(chance)?, chance)),
        _ => wide_lot(chance),
    }
}

fn draw_window(chance: &mut Chance) -> Result<Lot, AllocError> {
    match chance.below(7) {
        0 => any_lot(chance),
        1 => beside_limits(chance),
        2 => window_on_limits(chance),
        3 => on_lower(chance),
        4 => on_upper(chance),
        5 => Ok(nudged(on_upper(chance)?, chance)),
        _ => wide_lot(chance),
    }
}

pub fn known(chance: &mut Chance) -> Result<Side, TrialError> {
    let lot = draw_known(chance)?;
    let method = plans::known(lot.lower, lot.sigma, lot.k)?;
    let side = second::known(&lot.readings, lot.lower, lot.sigma, lot.k)?;
    agreed_readings(method, lot.readings, side, chance)
}

pub fn unknown(chance: &mut Chance) -> Result<Side, TrialError> {
    let lot = draw_unknown(chance)?;
    let method = plans::unknown(lot.lower, lot.k)?;
    let side = second::unknown(&lot.readings, lot.lower, lot.k)?;
    agreed_readings(method, lot.readings, side, chance)
}

pub fn window(chance: &mut Chance) -> Result<Side, TrialError> {
    let lot = draw_window(chance)?;
    let method = plans::window(lot.lower, lot.upper, lot.k)?;
    let side = second::window(&lot.readings, lot.lower, lot.upper, lot.k)?;
    agreed_readings(method, lot.readings, side, chance)
}
