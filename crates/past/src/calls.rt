// The calls of a bench's past, with all their arguments but the pages.
ghost use Rattle.std.specs.Prelude.{◌≡◌, true, false, List, length};
ghost use Rattle.std.specs.ControlFlow.{MatchControlFlow};
ghost use Rattle.bench.specs.Calls.{after};
ghost use Rattle.bench.specs.Ledger.{Holds, Line, standing};
ghost use Rattle.past.specs.Pasts.{call as called, ends};

use bench::{Bench, ClosedLot};
use method::Method;
use rows::Page;
use std::ops::ControlFlow;

// The calls are data and no closures: what is promised is said of every list of them.
#[derive(Clone, Copy)]
pub enum Call<R> {
    Open(u32),
    Read(u32, R),
    Strike(u32),
    Pour(u32, u32),
    Close,
}

// One call of a past: a granted closing ends it with the lot, and after any other call the bench goes on.
pub(crate) fn step<M: Method>(
    bench: Bench<M>,
    pages: &mut [Page<M::Numbers>],
    call: Call<M::Reading>,
) -> ControlFlow<ClosedLot<M>, Bench<M>>
    ensures { (ls : List (Line M.Reading)) → Holds (M.Method.meaning bench.method) M.Method.stands bench.n ls pages.old → MatchControlFlow result (λ b. (b ≡ bench) × (ends (M.Method.meaning bench.method) bench.n (length pages.old) call ls ≡ false) × Holds (M.Method.meaning bench.method) M.Method.stands bench.n (after (called (M.Method.meaning bench.method) bench.n (length pages.old) call ls) ls) pages.new) (λ lot. (ends (M.Method.meaning bench.method) bench.n (length pages.old) call ls ≡ true) × (lot.method ≡ bench.method) × (M.Method.of lot.tally ≡ (M.Method.meaning bench.method).total (standing ls)) × (length (standing ls) ≡ bench.n) × Holds (M.Method.meaning bench.method) M.Method.stands bench.n ls pages.new) }
{
    let _ = match call {
        Call::Open(name) => bench.open(pages, name),
        Call::Read(name, reading) => bench.read(pages, name, reading),
        Call::Strike(name) => bench.strike(pages, name),
        Call::Pour(source, goal) => bench.pour(pages, source, goal),
        Call::Close => {
            return match bench.close(pages) {
                Ok(lot) => ControlFlow::Break(lot),
                Err((_, bench)) => ControlFlow::Continue(bench),
            };
        }
    };
    ControlFlow::Continue(bench)
}
