// Inspection by attributes: tallies of marks, and the criterion of marks.
#![tactic(auto)]

pub mod counts;
pub mod marks;
pub mod tally;
