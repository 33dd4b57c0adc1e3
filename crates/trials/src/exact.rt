// Whole numbers of 128 bits: an answer that does not fit is an error. Each has a name, since `times(a, b)?` is plainer in
// a formula than the checked call with its error.
use crate::error::TrialError;

pub fn plus(a: i128, b: i128) -> Result<i128, TrialError> {
    a.checked_add(b).ok_or(TrialError::TooLarge)
}

pub fn minus(a: i128, b: i128) -> Result<i128, TrialError> {
    a.checked_sub(b).ok_or(TrialError::TooLarge)
}

pub fn times(a: i128, b: i128) -> Result<i128, TrialError> {
    a.checked_mul(b).ok_or(TrialError::TooLarge)
}

pub fn square(a: i128) -> Result<i128, TrialError> {
    times(a, a)
}
