// Numbers at random, always the same ones for the same seed, and the heap for what is drawn.
ghost use Rattle.std.specs.Prelude.{◌<◌, pos, neg_ℤ, ◌≤ℤ◌};

use std::alloc::Global;

const FACTOR: u64 = 6_364_136_223_846_793_005;

const STEP: u64 = 1_442_695_040_888_963_407;

#[derive(Drop)]
pub struct Chance {
    heap: Global,
    state: u64,
}

impl Chance {
    pub fn new(heap: Global, seed: u64) -> Chance {
        Chance { heap, state: seed }
    }

    // Where lists of drawn numbers are kept.
    pub fn heap(&self) -> Global {
        self.heap
    }

    // The upper 31 bits of the next state.
    fn next(&mut self) -> usize {
        self.state = self.state.wrapping_mul(FACTOR).wrapping_add(STEP);
        (self.state >> 33) as usize
    }

    // A number below the end; 0 where there is none, since nothing is asked of a call.
    pub fn below(&mut self, end: usize) -> usize
        ensures { 0 < end → result < end }
    {
        if end == 0 {
            return 0;
        }
        self.next() % end
    }

    // A number from low to high; low where there is none, for the same reason. Two numbers, as `clamp` takes them.
    pub fn between(&mut self, low: i32, high: i32) -> i32
        ensures from { low ≤ℤ result }
        ensures upto { low ≤ℤ high → result ≤ℤ high }
    {
        if low > high {
            return low;
        }
        let width = high.abs_diff(low).saturating_add(1);
        let step = self.below(width as usize) as u32;
        low.wrapping_add_unsigned(step).clamp(low, high)
    }

    // 1 or -1.
    pub fn sign(&mut self) -> i32
        ensures from { neg_ℤ (pos 1) ≤ℤ result }
        ensures upto { result ≤ℤ pos 1 }
    {
        if self.below(2) == 0 { 1 } else { -1 }
    }
}
