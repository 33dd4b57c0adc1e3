// Carries a lot out on a bench: its slips are entered, struck, poured and entered again in a random order.
use crate::chance::Chance;
use crate::desk::{DRUMS, Desk};
use crate::error::TrialError;
use bench::Bench;
use fault::Fault;
use method::Method;
use method::verdict::Verdict;
use rows::Page;

// The random calls before a lot is finished.
const CALLS: u32 = 40;

// Holds the answer to a call to the one that was expected.
fn told(given: Result<(), Fault>, expected: Result<(), Fault>) -> Result<(), TrialError> {
    if given == expected {
        Ok(())
    } else {
        Err(TrialError::Answer { given, expected })
    }
}

// A bench with its pages, the desk that says what should stand on them, and the numbers for the next calls.
struct Work<'a, M: Method + Copy> {
    bench: Bench<M>,
    pages: Vec<Page<M::Numbers>>,
    desk: Desk<M::Reading>,
    chance: &'a mut Chance,
}

// Gives the bench up.
impl<'a, M: Method + Copy> Drop for Work<'a, M> {
    fn drop(self) {
        let Work {
            bench,
            pages: _,
            desk: _,
            chance: _,
        } = self;
        let _ = bench.into_method();
    }
}

impl<'a, M: Method + Copy> Work<'a, M> {
    // Sets the bench up for n of the readings; the others are wrong.
    fn set_up(
        method: M,
        n: usize,
        readings: &[M::Reading],
        chance: &'a mut Chance,
    ) -> Result<Work<'a, M>, TrialError> {
        let desk = Desk::new(n, readings, chance)?;
        let numbers = method.numbers(method.blank());
        let mut pages = vec![in chance.heap(); Page { name: 0, numbers }; DRUMS]?;
        let n = u32::try_from(n)?;
        let bench = Bench::set_up(method, n, &mut pages).map_err(|(fault, _)| fault)?;
        Ok(Work {
            bench,
            pages,
            desk,
            chance,
        })
    }

    fn open(&mut self, name: u32) -> Result<(), TrialError> {
        told(self.bench.open(&mut self.pages, name), self.desk.open(name))
    }

    fn strike(&mut self, name: u32) -> Result<(), TrialError> {
        told(
            self.bench.strike(&mut self.pages, name),
            self.desk.strike(name),
        )
    }

    fn pour(&mut self, source: u32, goal: u32) -> Result<(), TrialError> {
        told(
            self.bench.pour(&mut self.pages, source, goal),
            self.desk.pour(source, goal),
        )
    }

    // Enters the slip's reading on a drum.
    fn read(&mut self, slip: usize, name: u32) -> Result<(), TrialError> {
        match self.desk.reading(slip) {
            Some(reading) => told(
                self.bench.read(&mut self.pages, name, reading),
                self.desk.read(slip, name),
            ),
            None => Ok(()),
        }
    }

    // Makes one call at random.
    fn step(&mut self) -> Result<(), TrialError> {
        let name = self.desk.some_name(self.chance);
        match self.chance.below(16) {
            0 => self.strike(name),
            1 => {
                let goal = self.desk.some_name(self.chance);
                self.pour(name, goal)
            }
            2..=4 => self.open(name),
            _ => match self.desk.some_loose(self.chance) {
                Some(slip) => self.read(slip, name),
                None => Ok(()),
            },
        }
    }

    // Makes calls at random, and one with a reading that no method takes.
    fn walk(&mut self, beyond: Option<M::Reading>) -> Result<(), TrialError> {
        for _ in 0..CALLS {
            self.step()?;
        }
        let name = self.desk.some_drum(self.chance);
        match beyond {
            Some(reading) => told(
                self.bench.read(&mut self.pages, name, reading),
                self.desk.read_beyond(name),
            ),
            None => Ok(()),
        }
    }

    // Strikes each drum that holds a wrong slip. By number, since a strike changes the slips that are gone through.
    fn strike_wrong(&mut self) -> Result<(), TrialError> {
        for slip in self.desk.planned()..self.desk.number() {
            if let Some(name) = self.desk.drum_of(slip) {
                self.strike(name)?;
            }
        }
        Ok(())
    }

    // Enters the slips that are missing.
    fn fill(&mut self) -> Result<(), TrialError> {
        for _ in 0..self.desk.planned() {
            let name = self.desk.some_drum(self.chance);
            if !self.desk.is_open(name) {
                self.open(name)?;
            }
            if let Some(slip) = self.desk.some_missing(self.chance) {
                self.read(slip, name)?;
            }
        }
        Ok(())
    }

    // Brings the bench to the planned slips, and tries to enter one more.
    fn finish(&mut self) -> Result<(), TrialError> {
        self.strike_wrong()?;
        self.fill()?;
        let name = self.desk.some_drum(self.chance);
        self.read(0, name)
    }

    // Closes the bench, and judges the lot; a refusal hands the work back.
    fn closed(self) -> Result<Verdict, (Fault, Work<'a, M>)> {
        let Work {
            bench,
            pages,
            desk,
            chance,
        } = self;
        match bench.close(&pages) {
            Ok(lot) => {
                let verdict = lot.judge();
                let _ = lot.into_method();
                Ok(verdict)
            }
            Err((fault, bench)) => {
                let work = Work {
                    bench,
                    pages,
                    desk,
                    chance,
                };
                Err((fault, work))
            }
        }
    }

    // Tries to close the bench while readings are missing.
    fn not_closed(self) -> Result<Work<'a, M>, TrialError> {
        if self.desk.is_full() {
            return Ok(self);
        }
        let expected = Err(Fault::ReadingsMissing);
        match self.closed() {
            Ok(_) => Err(TrialError::Answer {
                given: Ok(()),
                expected,
            }),
            Err((fault, work)) => {
                told(Err(fault), expected)?;
                Ok(work)
            }
        }
    }

    // What is said of the lot, once its readings stand.
    fn judged(self) -> Result<Verdict, TrialError> {
        self.closed().map_err(|(fault, _)| TrialError::Answer {
            given: Err(fault),
            expected: Ok(()),
        })
    }
}

// What is said of the lot of the first n readings. The others are entered by mistake, and struck.
pub fn carried_out<M: Method + Copy>(
    method: M,
    n: usize,
    readings: &[M::Reading],
    beyond: Option<M::Reading>,
    chance: &mut Chance,
) -> Result<Verdict, TrialError> {
    let mut work = Work::set_up(method, n, readings, chance)?;
    work.walk(beyond)?;
    let mut work = work.not_closed()?;
    work.finish()?;
    work.judged()
}
