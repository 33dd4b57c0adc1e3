// Reads one sheet from standard input, and prints its plan, its drums and the verdict, or the refusal.
#![tactic(auto)]

use carry::{Outcome, Report, carry};
use std::io;
use std::io::Read;

// One byte more than the longest sheet, so that a longer one is refused and not read without bound.
// It stands in accept too: no library below both programs reads input.
const MOST_READ: u64 = 65_536;

fn print_report(rt: &HostRuntime, report: &Report) -> io::Result<()> {
    let n = report.n;
    println!(rt; "U {n}")?;
    for drum in report.drums.iter() {
        println!(rt; "{drum}")?;
    }
    println!(rt; "{}", report.verdict)
}

fn main(rt: HostRuntime) -> io::Result<()> {
    let mut sheet = Vec::new(rt.alloc());
    rt.stdin().take(MOST_READ).read_to_end(&mut sheet)?;
    match carry(rt.alloc(), &sheet) {
        Ok(Outcome::Judged(report)) => print_report(&rt, &report),
        Ok(Outcome::NotYet(plan)) => println!(rt;
            "plan {} is not judged yet",
            plan.letter() as char
        ),
        Err(fault) => println!(rt; "{fault}"),
    }
}
