// A sheet: its table, the order of its entries, and the reader that hands them out.
#![tactic(auto)]

mod first;
mod order;
mod reader;
mod table;
mod whole;

pub use first::first_plan;
pub use reader::Reader;
pub use whole::entries;
