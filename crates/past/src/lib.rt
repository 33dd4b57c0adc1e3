// Pasts of a bench: any calls in any order, and what holds after them.
#![tactic(auto)]

mod calls;
mod plan;

pub use calls::Call;
pub use plan::Plan;
