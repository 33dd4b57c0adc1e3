// A sheet, carried out entry by entry on lent rows of pages.
ghost use Rattle.std.specs.Prelude.{◌≡◌};
ghost use Rattle.acceptance.specs.Carrying.{Left, LeftBehind, SameRows, lent, outcome_of, under_plan};
ghost use Rattle.acceptance.specs.Right.{JudgedBySheet};
ghost use Rattle.sheet.specs.Reading.{progress};

use crate::judged::Judged;
use crate::lent::Rows;
use course::judge_lot;
use entry::Plan;
use fault::Fault;
use method::verdict::Verdict;
use plans::{gauged, known, marks, mean, paired, unknown, window};
use sheet::{Reader, first_plan};

impl<'a, 'b, 'c> Rows<'a, 'b, 'c> {
    // The lot of a plan, judged by its method on the row of pages that has the method's numbers.
    fn judge_plan(&mut self, plan: Plan, reader: Reader<'_>) -> Result<Verdict, Fault>
        ensures told { result ≡ under_plan (lent self.old) plan (progress reader.entry) }
        ensures pages { LeftBehind plan (progress reader.entry) (lent self.old) (lent self.new) }
        ensures same { SameRows self.old self.new }
    {
        // Each plan's method has a type of its own, so each arm calls judge_lot at its own type.
        match plan {
            Plan::Known { n, limit, sigma, k } => {
                judge_lot(known(limit, sigma, k), n, self.singles, reader)
            }
            Plan::Unknown { n, limit, k } => {
                judge_lot(unknown(limit, k), n, self.singles, reader)
            }
            Plan::Window { n, lower, upper, k } => {
                judge_lot(window(lower, upper, k), n, self.doubles, reader)
            }
            Plan::Marks { n, most } => judge_lot(marks(most), n, self.counts, reader),
            Plan::Gauged { n, low, high, most } => {
                judge_lot(gauged(low, high, most), n, self.counts, reader)
            }
            Plan::Mean { n, mean: center } => judge_lot(mean(n, center), n, self.singles, reader),
            Plan::Paired { n } => judge_lot(paired(n), n, self.singles, reader),
        }
    }

    // Carries a sheet out on the row of its plan, and judges its lot.
    pub fn carry(&mut self, sheet: &[u8]) -> Result<Judged, Fault>
        ensures told { result ≡ outcome_of sheet.now (lent self.old) }
        ensures pages { Left sheet.now (lent self.old) (lent self.new) }
        ensures same { SameRows self.old self.new }
        ensures judged { JudgedBySheet sheet.now (lent self.new) result }
    {
        let mut reader = Reader::open(sheet)?;
        let plan = first_plan(&mut reader)?;
        let verdict = self.judge_plan(plan, reader)?;
        Ok(Judged { plan, verdict })
    }
}
