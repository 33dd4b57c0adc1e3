// The course of a sheet's entries on a bench under any method, up to the verdict on its lot.
#![tactic(auto)]

mod booked;
mod entries;
mod lot;

pub use booked::Booked;
pub use lot::judge_lot;
