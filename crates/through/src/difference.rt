// Passes on the difference of each pair.
ghost use Rattle.through.specs.Passings.{difference, pair_fits};

use crate::passing::Passing;
use variables::reading::is_reading;

// A pair of readings.
#[derive(Clone, Copy, Debug, PartialEq, Eq)]
pub struct Pair {
    pub first: i32,
    pub second: i32,
}

#[derive(Clone, Copy)]
pub struct Difference;

impl Passing for Difference {
    type Above = Pair;

    type Below = i32;

    ghost fits = { λ _. pair_fits };

    ghost passed = { λ _. difference };

    fn pass(&self, r: Pair) -> Option<i32> {
        if !is_reading(r.first) || !is_reading(r.second) {
            return None;
        }
        let difference = r.first - r.second;
        is_reading(difference).then_some(difference)
    }
}
