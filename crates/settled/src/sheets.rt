// Sheets written as their entries, and the two ways of carrying one out: under the plan U alone, and on a bench.
use acceptance::Judged;
use attributes::counts::Counts;
use carry::Outcome;
use fault::Fault;
use method::verdict::Verdict;
use rows::{MOST_PAGES, Page};
use std::alloc::{AllocGlobal, Global};
use std::process::Abort;
use std::test::Fail;
use variables::sums::Sums;

// What a sheet comes to: the lot's verdict, none where its plan is not judged yet, or the refusal's number and entry.
pub type Came = Result<Option<Verdict>, (u8, u16)>;

pub const ACCEPTED: Came = Ok(Some(Verdict::Accepted));

pub const NOT_ACCEPTED: Came = Ok(Some(Verdict::NotAccepted));

const NO_READINGS: Sums = Sums { n: 0, s: 0, q: 0 };

// A blank page of readings.
pub const BLANK: Page<Sums> = Page {
    name: 0,
    numbers: NO_READINGS,
};

const BLANK_PAIR: Page<(Sums, Sums)> = Page {
    name: 0,
    numbers: (NO_READINGS, NO_READINGS),
};

const BLANK_COUNT: Page<Counts> = Page {
    name: 0,
    numbers: Counts { n: 0, z: 0 },
};

// The three rows of a bench, one of which a sheet of each plan is carried out on.
#[derive(Drop)]
pub struct BenchRows {
    pub singles: [Page<Sums>; MOST_PAGES],
    pub doubles: [Page<(Sums, Sums)>; MOST_PAGES],
    counts: [Page<Counts>; MOST_PAGES],
}

impl BenchRows {
    pub fn blank() -> BenchRows {
        BenchRows {
            singles: [BLANK; MOST_PAGES],
            doubles: [BLANK_PAIR; MOST_PAGES],
            counts: [BLANK_COUNT; MOST_PAGES],
        }
    }

    pub fn carry(&mut self, sheet: &[u8]) -> Result<Judged, Fault> {
        acceptance::Rows {
            singles: &mut self.singles,
            doubles: &mut self.doubles,
            counts: &mut self.counts,
        }
        .carry(sheet)
    }
}

// 16 bits, high byte first.
fn push_word(sheet: &mut Vec<u8>, n: usize) -> Result<(), Fail> {
    sheet.extend_from_slice(&u16::try_from(n)?.to_be_bytes())?;
    Ok(())
}

// The sheet of entries that are parted by spaces, one directly behind another.
pub fn sheet_of(heap: Global, entries: &str) -> Result<Vec<u8>, Fail> {
    let count = u16::try_from(entries.split(' ').count())?;
    let first = 2 + 4 * usize::from(count);
    let mut sheet = Vec::new(heap);
    let mut text = Vec::new(heap);
    push_word(&mut sheet, usize::from(count))?;
    for entry in entries.split(' ') {
        push_word(&mut sheet, first + text.len())?;
        push_word(&mut sheet, entry.len())?;
        text.extend_from_slice(entry.as_bytes())?;
    }
    sheet.extend_from_slice(&text)?;
    Ok(sheet)
}

fn number_and_entry(fault: Fault) -> (u8, u16) {
    (fault.number(), fault.entry())
}

// What the sheet comes to under the plan U alone.
fn under_u(heap: Global, sheet: &[u8]) -> Came {
    match carry::carry(heap, sheet).map_err(number_and_entry)? {
        Outcome::Judged(report) => Ok(Some(report.verdict)),
        Outcome::NotYet(_) => Ok(None),
    }
}

// What the sheet comes to on a bench with blank rows.
fn on_a_bench(sheet: &[u8]) -> Came {
    let lot = BenchRows::blank().carry(sheet).map_err(number_and_entry)?;
    Ok(Some(lot.verdict))
}

// The sheet, which the words tell of, comes to the same both ways.
pub fn both_ways<R: Abort + AllocGlobal>(rt: &R, sheet: &[u8], came: Came, what: &str) {
    assert_eq!(rt;
        under_u(rt.alloc(), sheet),
        came,
        "{} under the plan U",
        what
    );
    assert_eq!(rt; on_a_bench(sheet), came, "{} on a bench", what);
}

// Each sheet of these entries comes to what stands beside them, both ways.
pub fn each_both_ways<R: Abort + AllocGlobal>(rt: &R, sheets: &[(&str, Came)]) -> Result<(), Fail> {
    for (entries, came) in sheets {
        let sheet = sheet_of(rt.alloc(), entries)?;
        both_ways(rt, &sheet, *came, entries);
    }
    Ok(())
}

// Each sheet of these entries comes to what stands beside them on a bench.
pub fn each_on_a_bench<R: Abort + AllocGlobal>(
    rt: &R,
    sheets: &[(&str, Came)],
) -> Result<(), Fail> {
    for (entries, came) in sheets {
        let sheet = sheet_of(rt.alloc(), entries)?;
        assert_eq!(rt; on_a_bench(&sheet), *came, "{}", entries);
    }
    Ok(())
}
