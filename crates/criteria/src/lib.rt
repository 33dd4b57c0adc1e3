// The criteria of inspection by variables: deviation known, deviation unknown, and the mean.
#![tactic(auto)]

mod constants;
pub mod known;
pub mod mean;
mod products;
pub mod student;
pub mod unknown;
