// What a sheet comes to.
ghost use Rattle.std.specs.Prelude.{Some};
ghost use Rattle.carry.specs.Printed.{printed};

use entry::Plan;
use method::verdict::Verdict;
use std::fmt;

// A drum, by its name and the number of its readings.
#[derive(Clone, Copy)]
pub struct Drum {
    pub name: u32,
    pub count: u32,
}

impl fmt::Display for Drum {
    ghost output = { λ d. Some (printed d) };

    fn fmt<W: fmt::Write>(&self, f: &mut fmt::Formatter<W>) -> fmt::Result {
        let name = self.name;
        let count = self.count;
        write!(f, "D {name} {count}")
    }
}

// A lot that was judged: the planned number, the drums in the order of first naming, and the verdict.
#[derive(Drop)]
pub struct Report {
    pub n: u32,
    pub drums: Vec<Drum>,
    pub verdict: Verdict,
}

#[derive(Drop)]
pub enum Outcome {
    Judged(Report),
    NotYet(Plan),
}
