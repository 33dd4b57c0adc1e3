// Carries a sheet out: what the judging program does, as a library call.
#![tactic(auto)]

mod booked;
mod carrying;
mod report;

pub use carrying::carry;
pub use report::{Drum, Outcome, Report};
