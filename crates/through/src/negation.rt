// Passes -r on for each reading r.
ghost use Rattle.through.specs.Passings.{negated};
ghost use Rattle.variables.specs.Sums.{reading};

use crate::passing::Passing;
use variables::reading::is_reading;

#[derive(Clone, Copy)]
pub struct Negation;

impl Passing for Negation {
    type Above = i32;

    type Below = i32;

    ghost fits = { λ _. reading };

    ghost passed = { λ _. negated };

    fn pass(&self, r: i32) -> Option<i32> {
        is_reading(r).then(|| -r)
    }
}
