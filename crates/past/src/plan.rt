// A plan, and any past of a bench under it.
ghost use Rattle.std.specs.Prelude.{◌≡◌, [], length};
ghost use Rattle.past.specs.Pasts.{answer};
ghost use Rattle.past.specs.Promises.{Left, OnlyWhatStandsCounts};

use crate::calls::{Call, step};
use bench::Bench;
use fault::Fault;
use method::Method;
use method::verdict::Verdict;
use rows::Page;
use std::ops::ControlFlow;

// A method and the planned number of readings.
#[derive(Clone, Copy)]
pub struct Plan<M> {
    pub method: M,
    pub n: u32,
}

impl<M: Method + Copy> Plan<M> {
    // Proved by itself, so that what is promised of every past stands on its answer alone.
    fn replay_calls(
        &self,
        pages: &mut [Page<M::Numbers>],
        calls: &[Call<M::Reading>],
    ) -> Result<Verdict, Fault>
        ensures told { result ≡ answer (M.Method.meaning self.now.method) self.now.n (length pages.old) calls.now }
        ensures pages { Left (M.Method.meaning self.now.method) M.Method.stands self.now.n calls.now pages.old pages.new }
    {
        let mut bench = Bench::set_up(self.method, self.n, pages).map_err(|(fault, _)| fault)?;
        for call in calls {
            match step(bench, pages, *call) {
                ControlFlow::Continue(back) => bench = back,
                ControlFlow::Break(lot) => {
                    let verdict = lot.judge();
                    let _ = lot.into_method();
                    return Ok(verdict);
                }
            }
        }
        bench.close_and_judge(pages)
    }

    // Sets a bench up, makes any calls in order, refused ones included, then closes it and judges the lot.
    pub fn replay(
        &self,
        pages: &mut [Page<M::Numbers>],
        calls: &[Call<M::Reading>],
    ) -> Result<Verdict, Fault>
        ensures told { result ≡ answer (M.Method.meaning self.now.method) self.now.n (length pages.old) calls.now }
        ensures promise { OnlyWhatStandsCounts (M.Method.meaning self.now.method) self.now.n (length pages.old) calls.now result }
        ensures pages { Left (M.Method.meaning self.now.method) M.Method.stands self.now.n calls.now pages.old pages.new }
    {
        self.replay_calls(pages, calls)
    }
}
