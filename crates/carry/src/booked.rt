// What the entries of a sheet have booked so far.
ghost use Rattle.std.specs.Prelude.{◌≡◌, ◌≤◌, ◌==◌, position};
ghost use Rattle.carry.specs.declared.report.Drum.{Drum};
ghost use Rattle.carry.specs.Drums.{Counted, name_of};

use crate::report::{Drum, Report};
use criteria::unknown::Unknown;
use entry::Said;
use fault::Fault;
use inspection::criterion::Criterion;
use inspection::tallying::Tallying;
use method::is_planned;
use std::alloc::Global;
use variables::reading::is_reading;
use variables::tally::Tally;

const LOWEST_NAME: u32 = 1;

const HIGHEST_NAME: u32 = 255;

// As many as a bench has pages, and as high as its names go; the drums here are on no bench.
const MOST_DRUMS: usize = 64;

// The planned number, the drums in the order of first naming, the one that was named last, and the tally of all readings.
#[derive(Drop)]
pub(crate) struct Booked {
    n: u32,
    drums: Vec<Drum>,
    current: usize,
    tally: Tally,
    ghost few: { n ≤ 50 },
    ghost counts: { Counted tally.sums.n drums.items },
}

// A number of a sheet as a drum's name.
fn name_of(number: i32) -> Result<u32, Fault>
    ensures { result ≡ name_of number }
{
    match u32::try_from(number) {
        Ok(name) if (LOWEST_NAME..=HIGHEST_NAME).contains(&name) => Ok(name),
        _ => Err(Fault::NameRange(0)),
    }
}

// Where the drum of a name stands among drums.
fn place_of(drums: &[Drum], name: u32) -> Option<usize>
    ensures { result ≡ position (λ (d : Drum). d.name == name) drums.now }
{
    drums.iter().position(|drum| drum.name == name)
}

impl Booked {
    ghost use Rattle.carry.specs.Booking.{Done, carried_out, drum_called, entered, view};
    ghost use Rattle.carry.specs.Carrying.{Begun, closed, planned_number, reported};

    // Nothing booked yet, for a planned number that the method allows.
    pub(crate) fn for_plan(heap: Global, method: &Unknown, number: i32) -> Result<Booked, Fault>
        ensures { Begun result (planned_number number) }
    {
        match u32::try_from(number) {
            Ok(n) if is_planned(number) && method.allows(n) => Ok(Booked {
                n,
                drums: Vec::new(heap),
                current: 0,
                tally: Tally::blank(),
            }),
            _ => Err(Fault::PlannedNumber(0)),
        }
    }

    // Names the drum for what follows, and opens it where it is not open.
    fn call_drum(&mut self, number: i32) -> Result<(), Fault>
        ensures { Done self.old result self.new (drum_called number (view self.old)) }
    {
        let name = name_of(number)?;
        let open = self.drums.len();
        if let Some(place) = place_of(&self.drums, name) {
            self.current = place;
            return Ok(());
        }
        if open >= MOST_DRUMS {
            return Err(Fault::RowFull(0));
        }
        self.drums.push(Drum { name, count: 0 })?;
        self.current = open;
        Ok(())
    }

    // Enters a reading on the drum named last, while fewer than planned stand.
    fn enter(&mut self, reading: i32) -> Result<(), Fault>
        ensures { Done self.old result self.new (entered self.old.n reading (view self.old)) }
    {
        if !is_reading(reading) {
            return Err(Fault::ReadingNotTaken(0));
        }
        if self.tally.count() >= self.n {
            return Err(Fault::PlanFull(0));
        }
        self.tally = self.tally.enter(reading)?;
        if let Some(drum) = self.drums.get_mut(self.current) {
            drum.count += 1;
        }
        Ok(())
    }

    // Carries out what an entry behind the plan says.
    pub(crate) fn carry_out(&mut self, said: Said) -> Result<(), Fault>
        ensures { Done self.old result self.new (carried_out self.old.n said (view self.old)) }
    {
        match said {
            Said::Drum(name) => self.call_drum(name),
            Said::Reading(reading) => self.enter(reading),
            _ => Err(Fault::EntryOrder(0)),
        }
    }

    // Judges the lot, where the planned number of readings stands.
    pub(crate) fn close(self, method: Unknown) -> Result<Report, Fault>
        ensures { reported result ≡ closed self.n method.limit method.k (view self) }
    {
        let Booked {
            n,
            drums,
            current: _,
            tally,
        } = self;
        if tally.count() < n {
            return Err(Fault::ReadingsMissing);
        }
        Ok(Report {
            n,
            drums,
            verdict: method.judge(tally),
        })
    }
}
