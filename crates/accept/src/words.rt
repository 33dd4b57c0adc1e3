// What was wrong and what was expected, for the person at the bench.
use fault::Fault;
use std::fmt;

// The sentence for a refusal.
#[derive(Clone, Copy)]
pub struct Sentence(pub Fault);

impl fmt::Display for Sentence {
    fn fmt<W: fmt::Write>(&self, f: &mut fmt::Formatter<W>) -> fmt::Result {
        let words = expectation(self.0);
        match self.0.entry() {
            0 => write!(f, "The sheet is refused: {words}."),
            entry => write!(f, "Entry {entry} is refused: {words}."),
        }
    }
}

fn expectation(fault: Fault) -> &'static str {
    match fault {
        Fault::SheetSize => {
            "its size is wrong; 2 to 65535 bytes were expected, with at least one entry and a table that fits"
        }
        Fault::EntryPlace(_) => {
            "it is out of place; 1 to 48 bytes were expected, behind the table and the entry before it, within the sheet"
        }
        Fault::EntryForm(_) => {
            "it has no known form; a letter with its numbers was expected, a single comma between two numbers"
        }
        Fault::EntryOrder(_) => {
            "it is out of order; a plan was expected first and nowhere else, then a drum, then readings that fit the plan"
        }
        Fault::PlanConstant(_) => {
            "a constant of the plan is out of range; limits and mean from -2000 to 2000 were expected, the lower limit not above the upper, K from 0 to 4000, the deviation from 0 to 2000, Ac from 0 to 49, and under T and V from 2 to 21 readings"
        }
        Fault::PlannedNumber(_) => {
            "the planned number of readings does not fit the plan; 1 to 50 was expected, at least 2 under U and W, and more than Ac under A and G"
        }
        Fault::NameRange(_) => "the drum's number is out of range; 1 to 255 was expected",
        Fault::RowFull(_) => "64 drums are open; one of them was expected",
        Fault::ReadingNotTaken(_) => {
            "a number is no reading; -2000 to 2000 was expected, and of a pair the difference too"
        }
        Fault::PlanFull(_) => "all planned readings are there; no further one was expected",
        Fault::ReadingsMissing => "readings are missing; as many as planned were expected",
        Fault::NoMemory => "the machine has no memory left; the sheet was not looked at",
        _ =>
            "the pages of the bench are not as they should be; the program's own blank pages were expected",
    }
}
