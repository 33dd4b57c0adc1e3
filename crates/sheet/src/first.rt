// The plan that a sheet begins with.
ghost use Rattle.sheet.specs.First.{Began, first_of};
ghost use Rattle.sheet.specs.Reading.{progress};

use crate::reader::Reader;
use entry::{Plan, Said};
use fault::Fault;

// Reads the plan that a sheet begins with; any other entry, or none, is out of order at entry 1.
pub fn first_plan(reader: &mut Reader<'_>) -> Result<Plan, Fault>
    ensures { Began result (progress reader.new) (first_of (progress reader.old)) }
{
    match reader.read()?.map(|entry| entry.said()) {
        Some(Said::Planned(plan)) => Ok(plan),
        _ => Err(Fault::EntryOrder(1)),
    }
}
