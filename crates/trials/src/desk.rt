// A second record of what should stand on a bench: a slip for each reading, and the drum that it is entered on.
ghost use Rattle.std.specs.Prelude.{◌≤◌};

use crate::chance::Chance;
use fault::Fault;
use std::alloc::AllocError;

// The drums that can be open at a time: the pages of the bench.
pub const DRUMS: usize = 6;

// The names that a lot uses; more than there are pages.
const NAMES: u32 = 8;

// Written out anew, as the whole of this record is.
const HIGHEST_NAME: u32 = 255;

// The most slips of a lot.
const MOST_SLIPS: usize = 1_000;

// A reading, and the drum that it is entered on.
#[derive(Clone, Copy)]
struct Slip<R> {
    reading: R,
    drum: Option<u32>,
}

// The open drums, and the slips of a lot: the first n are right, the others wrong.
#[derive(Drop)]
pub struct Desk<R: Copy> {
    n: usize,
    first_name: u32,
    // As many places as the bench has pages.
    drums: [Option<u32>; DRUMS],
    slips: Vec<Slip<R>>,
}

// Whether a number is the name of a drum.
fn named(name: u32) -> Result<(), Fault> {
    if (1..=HIGHEST_NAME).contains(&name) {
        Ok(())
    } else {
        Err(Fault::NameRange(0))
    }
}

// A place among the names of a lot.
fn some_place(chance: &mut Chance) -> u32 {
    chance.below(NAMES as usize) as u32
}

// The bench's calls: each says how the bench should answer, and changes the desk where it is granted.
impl<R: Copy> Desk<R> {
    pub fn new(n: usize, readings: &[R], chance: &mut Chance) -> Result<Desk<R>, AllocError> {
        let first_name = chance.below(247) as u32 + 1;
        let slips = readings
            .iter()
            .map(|reading| Slip {
                reading: *reading,
                drum: None,
            })
            .collect(chance.heap())?;
        Ok(Desk {
            n,
            first_name,
            drums: [None; DRUMS],
            slips,
        })
    }

    // How many of the slips are right.
    pub fn planned(&self) -> usize {
        self.n
    }

    // How many slips there are; no lot has more than 1000.
    pub fn number(&self) -> usize
        ensures { result ≤ 1000 }
    {
        self.slips.len().min(MOST_SLIPS)
    }

    pub fn is_open(&self, name: u32) -> bool {
        self.drums.contains(&Some(name))
    }

    // Whether as many slips as planned are entered.
    pub fn is_full(&self) -> bool {
        self.slips.iter().filter(|slip| slip.drum.is_some()).count() >= self.n
    }

    pub fn reading(&self, slip: usize) -> Option<R> {
        self.slips.get(slip).map(|slip| slip.reading)
    }

    // The drum that a slip is entered on.
    pub fn drum_of(&self, slip: usize) -> Option<u32> {
        self.slips.get(slip).and_then(|slip| slip.drum)
    }

    fn standing(&self, name: u32) -> Result<(), Fault> {
        if self.is_open(name) {
            Ok(())
        } else {
            Err(Fault::NameNotOpen(0))
        }
    }

    pub fn open(&mut self, name: u32) -> Result<(), Fault> {
        named(name)?;
        if self.is_open(name) {
            return Err(Fault::NameOpen(0));
        }
        let Some(free) = self.drums.iter().position(|drum| drum.is_none()) else {
            return Err(Fault::RowFull(0));
        };
        self.drums[free] = Some(name);
        Ok(())
    }

    pub fn strike(&mut self, name: u32) -> Result<(), Fault> {
        named(name)?;
        self.standing(name)?;
        self.take_out(name, None);
        Ok(())
    }

    pub fn pour(&mut self, source: u32, goal: u32) -> Result<(), Fault> {
        named(source)?;
        named(goal)?;
        self.standing(source)?;
        self.standing(goal)?;
        if source == goal {
            return Err(Fault::PouredOntoItself(0));
        }
        self.take_out(source, Some(goal));
        Ok(())
    }

    // Enters a reading that no method takes.
    pub fn read_beyond(&self, name: u32) -> Result<(), Fault> {
        named(name)?;
        self.standing(name)?;
        Err(Fault::ReadingNotTaken(0))
    }

    // Enters a slip on a drum.
    pub fn read(&mut self, slip: usize, name: u32) -> Result<(), Fault> {
        named(name)?;
        self.standing(name)?;
        if self.is_full() {
            return Err(Fault::PlanFull(0));
        }
        if let Some(slip) = self.slips.get_mut(slip) {
            slip.drum = Some(name);
        }
        Ok(())
    }

    // Takes a drum out; its slips go to another one, or are struck.
    fn take_out(&mut self, name: u32, goal: Option<u32>) {
        for drum in self.drums.iter_mut() {
            if *drum == Some(name) {
                *drum = None;
            }
        }
        for slip in self.slips.iter_mut() {
            if slip.drum == Some(name) {
                slip.drum = goal;
            }
        }
    }

    // One of the lot's names, or now and then a number that is no name.
    pub fn some_name(&self, chance: &mut Chance) -> u32 {
        match chance.below(32) {
            0 => 0,
            1 => HIGHEST_NAME + 1,
            _ => self.first_name.saturating_add(some_place(chance)),
        }
    }

    // An open drum, the first one from some place on; one of the lot's names where none is open.
    pub fn some_drum(&self, chance: &mut Chance) -> u32 {
        let start = some_place(chance);
        (start..NAMES)
            .chain(0..start)
            .map(|place| self.first_name.saturating_add(place))
            .find(|name| self.is_open(*name))
            .unwrap_or(self.first_name)
    }

    // A slip that is not entered, the first one from some place on.
    pub fn some_loose(&self, chance: &mut Chance) -> Option<usize> {
        self.loose_below(self.number(), chance)
    }

    // The same of the first n slips.
    pub fn some_missing(&self, chance: &mut Chance) -> Option<usize> {
        self.loose_below(self.n, chance)
    }

    fn loose_below(&self, end: usize, chance: &mut Chance) -> Option<usize> {
        let start = chance.below(end);
        (start..end)
            .chain(0..start)
            .find(|slip| self.drum_of(*slip).is_none())
    }
}
