// A lent row of pages: finding a name, checking the row, joining its tallies, writing and shifting its pages.
#![tactic(auto)]

mod checking;
mod edits;
mod finding;
mod joining;
mod page;

pub use checking::{MOST_PAGES, check};
pub use edits::{blank_all, put, take_out};
pub use finding::place;
pub use joining::total;
pub use page::Page;
