// Lists of readings of a given form.
use crate::chance::Chance;
use std::alloc::{AllocError, Global};

// Readings from low to high, at random.
pub fn scattered(
    chance: &mut Chance,
    n: usize,
    low: i32,
    high: i32,
) -> Result<Vec<i32>, AllocError> {
    let heap = chance.heap();
    (0..n).map(|_| chance.between(low, high)).collect(heap)
}

// Readings at the two ends of their range.
pub fn at_ends(chance: &mut Chance, n: usize) -> Result<Vec<i32>, AllocError> {
    let heap = chance.heap();
    (0..n).map(|_| chance.sign() * 2000).collect(heap)
}

// As many readings above the centre as below it, all as far away, and one at the centre where n is odd.
pub fn balanced(heap: Global, n: usize, centre: i32, away: i32) -> Result<Vec<i32>, AllocError> {
    let mut readings = vec![in heap; centre.saturating_add(away); n / 2]?;
    readings.resize(n / 2 * 2, centre.saturating_sub(away))?;
    readings.resize(n, centre)?;
    Ok(readings)
}

// n readings at one level but for one that is apart from it.
#[derive(Clone, Copy)]
pub struct Lone {
    pub n: usize,
    pub level: i32,
    pub apart: i32,
}

impl Lone {
    // Its readings, the level counted from the origin: upwards where the sign is 1, downwards where it is -1.
    pub fn readings(self, heap: Global, origin: i32, sign: i32) -> Result<Vec<i32>, AllocError> {
        let level = origin.saturating_add(self.level.saturating_mul(sign));
        let mut readings = vec![in heap; level; self.n]?;
        if let Some(lone) = readings.first_mut() {
            *lone = level.saturating_add(self.apart.saturating_mul(sign));
        }
        Ok(readings)
    }
}

// Moves one reading by 1, up or down.
pub fn nudge(readings: &mut [i32], chance: &mut Chance) {
    let by = chance.sign();
    if let Some(x) = readings.first_mut() {
        *x = x.saturating_add(by);
    }
}
