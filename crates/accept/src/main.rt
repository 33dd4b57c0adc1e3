// Reads one sheet from standard input, and prints its plan, its drums and the verdict, or the refusal.
#![tactic(auto)]

mod words;

use acceptance::{Judged, Rows};
use attributes::counts::Counts;
use entry::Plan;
use fault::Fault;
use rows::{MOST_PAGES, Page};
use std::io;
use std::io::Read;
use variables::sums::Sums;
use words::Sentence;

// One byte more than the longest sheet, so that a longer one is refused and not read without bound.
// It stands in judge too: no library below both programs reads input.
const MOST_READ: u64 = 65_536;

fn blank<N>(numbers: N) -> Page<N> {
    Page { name: 0, numbers }
}

// The drums of a row, each with the number of readings that its page has. A page has no text of its own: what its
// numbers count belongs to the plan.
fn print_drums<N, F: Fn(&N) -> u32>(rt: &HostRuntime, pages: &[Page<N>], count: F) -> io::Result<()>
    requires { F.IsAlwaysCallable count }
{
    for page in pages {
        if page.name != 0 {
            let readings = count(&page.numbers);
            println!(rt; "D {} {readings}", page.name)?;
        }
    }
    Ok(())
}

// To standard output the refusal, and to standard error a sentence for the person at the bench.
fn print_refusal(rt: &HostRuntime, fault: Fault) -> io::Result<()> {
    println!(rt; "{fault}")?;
    eprintln!(rt; "{}", Sentence(fault))
}

fn main(rt: HostRuntime) -> io::Result<()> {
    let mut sheet = Vec::new(rt.alloc());
    rt.stdin().take(MOST_READ).read_to_end(&mut sheet)?;
    let none = Sums { n: 0, s: 0, q: 0 };
    let mut singles = [blank(none); MOST_PAGES];
    let mut doubles = [blank((none, none)); MOST_PAGES];
    let mut counts = [blank(Counts { n: 0, z: 0 }); MOST_PAGES];
    let mut rows = Rows {
        singles: &mut singles,
        doubles: &mut doubles,
        counts: &mut counts,
    };
    let Judged { plan, verdict } = match rows.carry(&sheet) {
        Ok(lot) => lot,
        Err(fault) => return print_refusal(&rt, fault),
    };
    println!(rt; "{} {}", plan.letter() as char, plan.planned())?;
    match plan {
        // Each reading is entered into both tallies.
        Plan::Window { .. } => print_drums(&rt, rows.doubles, |pair| pair.0.n)?,
        Plan::Marks { .. } | Plan::Gauged { .. } => print_drums(&rt, rows.counts, |marks| marks.n)?,
        _ => print_drums(&rt, rows.singles, |sums| sums.n)?,
    }
    println!(rt; "{verdict}")
}
