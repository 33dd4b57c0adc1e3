// Lots of the plans on a mean: T and V.
use crate::agreement::{agreed, agreed_readings};
use crate::chance::Chance;
use crate::error::TrialError;
use crate::patterns::{Lone, at_ends, balanced, nudge, scattered};
use crate::second::{self, Side};
use std::alloc::AllocError;
use through::difference::Pair;

// A pair whose difference is no reading.
const BEYOND: Pair = Pair {
    first: 1_001,
    second: -1_000,
};

// A number of readings, a level above the mean, and how far a lone reading is from it, so that Student's fractile is just met.
const JUST_MET: [(usize, i32, i32); 8] = [
    (3, 16, 25),
    (5, 283, 1250),
    (6, 203, 1200),
    (8, 179, 1600),
    (9, 43, 450),
    (18, 37, 900),
    (21, 29, 840),
    (3, 320, 500),
];

fn draw_n(chance: &mut Chance) -> usize {
    chance.below(20) + 2
}

// Readings from a range around the mean that is not quite in the middle of it.
fn around(chance: &mut Chance, mean: i32) -> Result<Vec<i32>, AllocError> {
    let n = draw_n(chance);
    let width = chance.between(0, 300);
    let centre = mean.saturating_add(chance.between(0, width));
    let (low, high) = (centre.saturating_sub(width), centre.saturating_add(width));
    scattered(chance, n, low, high)
}

// Readings of the mean, or as far above as below it.
fn even(chance: &mut Chance, mean: i32) -> Result<Vec<i32>, AllocError> {
    let n = draw_n(chance);
    let away = chance.between(-3, 3).max(0);
    balanced(chance.heap(), n, mean, away)
}

fn on_limit(chance: &mut Chance, mean: i32) -> Result<Vec<i32>, AllocError> {
    let (n, level, apart) = JUST_MET[chance.below(JUST_MET.len())];
    let sign = chance.sign();
    Lone { n, level, apart }.readings(chance.heap(), mean, sign)
}

// Readings, or differences, that are held to the mean.
fn draw(chance: &mut Chance, mean: i32) -> Result<Vec<i32>, AllocError> {
    match chance.below(4) {
        0 => around(chance, mean),
        1 => even(chance, mean),
        2 => on_limit(chance, mean),
        _ => {
            let mut readings = on_limit(chance, mean)?;
            nudge(&mut readings, chance);
            Ok(readings)
        }
    }
}

// Readings at the ends of their range.
fn wide(chance: &mut Chance) -> Result<Vec<i32>, AllocError> {
    let n = draw_n(chance);
    at_ends(chance, n)
}

// A mean, and readings that are held to it.
fn draw_mean(chance: &mut Chance) -> Result<(i32, Vec<i32>), AllocError> {
    if chance.below(8) == 0 {
        let mean = chance.between(-2000, 2000);
        Ok((mean, wide(chance)?))
    } else {
        let mean = chance.between(-200, 200);
        Ok((mean, draw(chance, mean)?))
    }
}

// Differences that are held to 0.
fn draw_differences(chance: &mut Chance) -> Result<Vec<i32>, AllocError> {
    if chance.below(8) == 0 {
        wide(chance)
    } else {
        draw(chance, 0)
    }
}

pub fn mean(chance: &mut Chance) -> Result<Side, TrialError> {
    let (expected, readings) = draw_mean(chance)?;
    let side = second::mean(&readings, expected)?;
    let method = plans::mean(i32::try_from(readings.len())?, expected)?;
    agreed_readings(method, readings, side, chance)
}

// A pair of readings with the difference.
fn pair_with(chance: &mut Chance, difference: i32) -> Pair {
    let low = (-2000i32).saturating_sub(difference).max(-2000);
    let high = 2000i32.saturating_sub(difference).min(2000);
    let second = chance.between(low, high);
    Pair {
        first: second.saturating_add(difference),
        second,
    }
}

// A pair with any difference.
fn any_pair(chance: &mut Chance) -> Pair {
    let difference = chance.between(-2000, 2000);
    pair_with(chance, difference)
}

pub fn paired(chance: &mut Chance) -> Result<Side, TrialError> {
    let heap = chance.heap();
    let drawn = draw_differences(chance)?;
    let slips: Vec<Pair> = drawn
        .iter()
        .map(|difference| pair_with(chance, *difference))
        .collect(heap)?;
    let differences: Vec<i32> = slips
        .iter()
        .map(|pair| pair.first.saturating_sub(pair.second))
        .collect(heap)?;
    let side = second::mean(&differences, 0)?;
    let method = plans::paired(i32::try_from(slips.len())?)?;
    agreed(method, slips, Some(BEYOND), side, any_pair, chance)
}
