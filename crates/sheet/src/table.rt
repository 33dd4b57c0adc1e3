// The table of a sheet: how many entries it has, and where each of them lies.
ghost use Rattle.std.specs.Prelude.{◌≡◌, ◌+◌, ◌*◌, ◌<◌, ◌≤◌, length};
ghost use Rattle.sheet.specs.Table.{end_at, offset_at, placed, table_end, table_of, word_at};

use fault::Fault;
use std::ops::Range;

const SHORTEST: usize = 2;

const LONGEST: usize = 65_535;

const LONGEST_ENTRY: usize = 48;

// 16 bits of a sheet, high byte first.
fn word(sheet: &[u8], i: usize) -> u16
    requires { i + 1 < length sheet.now }
    ensures { result ≡ word_at sheet.now i }
{
    u16::from_be_bytes([sheet[i], sheet[i + 1]])
}

// Where the table ends.
fn table_end(sheet: &[u8]) -> usize
    requires { 1 < length sheet.now }
    ensures { result ≡ table_end sheet.now }
{
    2 + 4 * usize::from(word(sheet, 0))
}

// Where entry i lies.
pub(crate) fn span_at(sheet: &[u8], i: u16) -> Range<usize>
    requires { 2 + 4 * i + 4 ≤ length sheet.now }
    ensures start { result.start ≡ offset_at sheet.now i }
    ensures end { result.end ≡ end_at sheet.now i }
{
    let at = 2 + 4 * usize::from(i);
    let start = usize::from(word(sheet, at));
    start..start + usize::from(word(sheet, at + 2))
}

// Whether entry i lies where an entry may: behind the table, behind the entry before it, and within the sheet.
fn is_placed(sheet: &[u8], i: u16) -> bool
    ensures { result ≡ placed sheet.now i }
{
    if 2 + 4 * usize::from(i) + 4 > sheet.len() {
        return false;
    }
    let here = span_at(sheet, i);
    let before = match i.checked_sub(1) {
        Some(previous) => span_at(sheet, previous).end,
        None => 0,
    };
    (1..=LONGEST_ENTRY).contains(&here.len())
        && here.start >= table_end(sheet)
        && here.start >= before
        && here.end <= sheet.len()
}

// The number of entries of a sheet whose size and places are as they should be.
#[tactic(auto, using(crate::proofs::Places::misplaced_from, crate::proofs::Places::misplaced_none))]
pub(crate) fn table(sheet: &[u8]) -> Result<u16, Fault>
    ensures { result ≡ table_of sheet.now }
{
    if !(SHORTEST..=LONGEST).contains(&sheet.len()) {
        return Err(Fault::SheetSize);
    }
    let count = word(sheet, 0);
    if count == 0 || sheet.len() < table_end(sheet) {
        return Err(Fault::SheetSize);
    }
    // By number: an entry is looked at with the one before it, and there is no slice of them.
    for i in 0..count {
        if !is_placed(sheet, i) {
            return Err(Fault::EntryPlace(i + 1));
        }
    }
    Ok(count)
}
