// The text of an entry: its letter, its numbers, and what they say.
#![tactic(auto)]

mod forms;
mod kinds;
mod numbers;

pub use forms::said;
pub use kinds::{Entry, Part, Plan, Said};
pub use numbers::number;
