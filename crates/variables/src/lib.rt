// Inspection by variables: what a reading is, and tallies of readings.
#![tactic(auto)]

pub mod reading;
pub mod sums;
pub mod tally;
