// A sheet that is read entry by entry.
ghost use Rattle.std.specs.Prelude.{◌≡◌, ◌<◌, ◌≤◌, Ok, length, true};
ghost use Rattle.sheet.specs.Table.{end_at, offset_at, placed, table_of};

use crate::order::{Stage, follow};
use crate::table::{span_at, table};
use entry::{Entry, Part, said};
use fault::{Fault, within};
use std::ops::Range;

// It counts on by itself, since it is asked for one entry at a time.
#[derive(Debug, Drop)]
pub struct Reader<'a> {
    sheet: &'a [u8],
    count: u16,
    next: u16,
    stage: Stage,

    // The table of the sheet is as it should be.
    ghost sound: { table_of sheet.now ≡ Ok count },
}

impl<'a> Reader<'a> {
    ghost use Rattle.sheet.specs.Reading.{advanced, begun, opened, progress, seen, step_at, step_seen};

    // A reader before the first entry, if the sheet's size and the places of its entries are as they should be.
    pub fn open(sheet: &'a [u8]) -> Result<Reader<'a>, Fault>
        ensures { begun result ≡ opened sheet.now }
    {
        let count = table(sheet)?;
        Ok(Reader {
            sheet,
            count,
            next: 0,
            stage: Stage::BeforePlan,
        })
    }

    // Where the next entry lies.
    fn span(&self) -> Range<usize>
        requires { self.now.next < self.now.count }
        ensures start { result.start ≡ offset_at self.now.sheet.now self.now.next }
        ensures end { result.end ≡ end_at self.now.sheet.now self.now.next }
        ensures within { result.end ≤ length self.now.sheet.now }
        ensures placed { placed self.now.sheet.now self.now.next ≡ true }
    {
        span_at(self.sheet, self.next)
    }

    // The entry that comes next, and the stage behind it.
    fn step(&self) -> Result<(Entry<'a>, Stage), Fault>
        requires { self.now.next < self.now.count }
        ensures { step_seen result ≡ step_at self.now.sheet.now self.now.next self.now.stage }
    {
        let span = self.span();
        let place = self.next + 1;
        let offset = span.start;
        let bytes = &self.sheet[span];
        let said = within(said(bytes), place)?;
        let stage = follow(self.stage, said).ok_or(Fault::EntryOrder(place))?;
        let part = Part {
            bytes,
            offset,
            place,
        };
        Ok((Entry::new(part, said), stage))
    }

    // The next entry, or none behind the last; a refusal leaves the reader where it was.
    pub fn read(&mut self) -> Result<Option<Entry<'a>>, Fault>
        ensures { (seen result, progress self.new) ≡ advanced (progress self.old) }
    {
        if self.next >= self.count {
            return Ok(None);
        }
        let (entry, stage) = self.step()?;
        self.next += 1;
        self.stage = stage;
        Ok(Some(entry))
    }
}
