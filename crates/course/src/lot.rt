// A lot: a bench is set up for its plan, the entries behind the plan are carried out, and the lot is judged.
ghost use Rattle.std.specs.Prelude.{◌≡◌, [], length, Ok, Err, MatchResult};
ghost use Rattle.bench.specs.Ledger.{Holds};
ghost use Rattle.course.specs.Course.{natural};
ghost use Rattle.course.specs.Lots.{LeftOf, LeftUnder, lot_of, lot_under, ready, under, verdict_after};
ghost use Rattle.method.specs.Answers.{given};
ghost use Rattle.sheet.specs.Reading.{progress};

use crate::booked::Booked;
use crate::entries::{carry_entries, to_natural};
use bench::Bench;
use fault::{Fault, within};
use method::Method;
use method::verdict::Verdict;
use rows::Page;
use sheet::Reader;

// A bench for a method and a planned number as it stands on a sheet.
fn set_up<M: Method + Copy>(
    method: M,
    n: i32,
    pages: &mut [Page<M::Numbers>],
) -> Result<Bench<M>, Fault>
    ensures { MatchResult result (λ b. (ready (M.Method.meaning method) (length pages.old) n ≡ Ok tt) × (b.method ≡ method) × (b.n ≡ natural n) × Holds (M.Method.meaning method) M.Method.stands (natural n) [] pages.new) (λ f. (ready (M.Method.meaning method) (length pages.old) n ≡ Err f) × (pages.new ≡ pages.old)) }
{
    Bench::set_up(method, to_natural(n), pages).map_err(|(fault, _)| fault.at(1))
}

// Carries out what follows the plan, and judges the lot.
fn finish<M: Method + Copy>(
    bench: Bench<M>,
    pages: &mut [Page<M::Numbers>],
    reader: Reader<'_>,
) -> Result<Verdict, Fault>
where
    M::Reading: Booked,
    ensures told { Holds (M.Method.meaning bench.method) M.Method.stands bench.n [] pages.old → result ≡ verdict_after (M.Method.meaning bench.method) M.Reading.Booked.booked (length pages.old) bench.n (progress reader.entry) }
    ensures pages { Holds (M.Method.meaning bench.method) M.Method.stands bench.n [] pages.old → Holds (M.Method.meaning bench.method) M.Method.stands bench.n (under (M.Method.meaning bench.method) M.Reading.Booked.booked (length pages.old) bench.n (progress reader.entry)).0 pages.new }
{
    match carry_entries(&bench, pages, reader) {
        Ok(()) => bench.close_and_judge(pages),
        Err(fault) => {
            let _ = bench.into_method();
            Err(fault)
        }
    }
}

// The lot of a sheet whose reader stands behind the plan, judged by the method that was made for the plan.
pub fn judge_lot<M: Method + Copy>(
    method: Result<M, Fault>,
    n: i32,
    pages: &mut [Page<M::Numbers>],
    reader: Reader<'_>,
) -> Result<Verdict, Fault>
where
    M::Reading: Booked,
    ensures told { result ≡ lot_of (given M.Method.meaning method) M.Reading.Booked.booked (length pages.old) n (progress reader.entry) }
    ensures pages { LeftOf (given M.Method.meaning method) M.Reading.Booked.booked M.Method.stands n (progress reader.entry) pages.old pages.new }
{
    let bench = set_up(within(method, 1)?, n, pages)?;
    finish(bench, pages, reader)
}
