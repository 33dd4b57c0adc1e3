// A sheet, carried out entry by entry.
ghost use Rattle.std.specs.Prelude.{◌≡◌};
ghost use Rattle.carry.specs.Booking.{view};
ghost use Rattle.carry.specs.Carrying.{books_of, came, lot_under, other, outcome_of, reported, viewed};
ghost use Rattle.carry.specs.Judged.{JudgedBySheet};
ghost use Rattle.sheet.specs.Reading.{progress};
ghost use Rattle.sheet.specs.Sheets.{Answered};

use crate::booked::Booked;
use crate::report::{Outcome, Report};
use criteria::unknown::Unknown;
use entry::Plan;
use fault::{Fault, within};
use sheet::{Reader, entries, first_plan};
use std::alloc::Global;

// Reads and carries out the entries behind the plan, one by one.
fn book_entries(booked: &mut Booked, mut reader: Reader<'_>) -> Result<(), Fault>
    ensures planned { booked.new.n ≡ booked.old.n }
    ensures books { Answered (viewed result booked.new) (books_of booked.old.n (progress reader.entry) (view booked.old)) }
{
    while let Some(entry) = reader.read()? {
        within(booked.carry_out(entry.said()), entry.part().place)?;
    }
    Ok(())
}

// Sets up a plan of unknown deviation, carries out what follows it, and judges the lot.
fn judge_lot(heap: Global, reader: Reader<'_>, n: i32, limit: i32, k: i32) -> Result<Report, Fault>
    ensures { Answered (reported result) (lot_under n limit k (progress reader.entry)) }
{
    let method = within(Unknown::new(limit, k), 1)?;
    let mut booked = within(Booked::for_plan(heap, &method, n), 1)?;
    book_entries(&mut booked, reader)?;
    booked.close(method)
}

// Reads a sheet alone whose plan is not judged yet.
fn leave(heap: Global, sheet: &[u8], plan: Plan) -> Result<Outcome, Fault>
    ensures { Answered (came result) (other sheet.now plan) }
{
    let _ = entries(heap, sheet)?;
    Ok(Outcome::NotYet(plan))
}

// Carries a sheet out and judges its lot, or says that its plan is not judged yet.
pub fn carry(heap: Global, sheet: &[u8]) -> Result<Outcome, Fault>
    ensures told { Answered (came result) (outcome_of sheet.now) }
    ensures judged { JudgedBySheet sheet.now (came result) }
{
    let mut reader = Reader::open(sheet)?;
    let plan = first_plan(&mut reader)?;
    match plan {
        Plan::Unknown { n, limit, k } => {
            let report = judge_lot(heap, reader, n, limit, k)?;
            Ok(Outcome::Judged(report))
        }
        _ => leave(heap, sheet, plan),
    }
}
