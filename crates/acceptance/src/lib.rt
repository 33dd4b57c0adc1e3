// Carries a sheet out on a bench: what the judging program does, as a library call.
#![tactic(auto)]

mod carrying;
mod judged;
mod lent;

pub use judged::Judged;
pub use lent::Rows;
