// Tallies: what is kept of the readings of a sample.
ghost use Rattle.inspection.specs.Tallied.{lone, pooled};
ghost use Rattle.method.proofs.Tallies.{decides};
ghost use Rattle.std.proofs.Common.{subst};
ghost use Rattle.std.specs.Prelude.{◌≡◌, ◌+◌, ◌≤◌, true, refl};
ghost use Rattle.variables.specs.Laws.{variables_laws};
ghost use Rattle.variables.specs.Sums.{Sound, kept, sound, together};
ghost use Rattle.variables.specs.Tested.{sound_from, sound_to};

use crate::reading::is_reading;
use crate::sums::Sums;
use fault::Fault;
use inspection::tallying::Tallying;
use method::MOST_PLANNED;

// The greatest size of a reading.
const SIZE: u64 = 2_000;

// The square of that size.
const SQUARE: u64 = 4_000_000;

// Numbers such as at most 50 readings may have.
#[derive(Clone, Copy)]
pub struct Tally {
    sums: Sums,
    ghost ok: { Sound sums },
}

// The numbers of the readings of two tallies, which are few enough for one.
fn plus(x: Sums, y: Sums) -> Sums
    requires first { Sound x }
    requires second { Sound y }
    requires few { x.n + y.n ≤ 50 }
    ensures value { result ≡ together x y }
    ensures few { result.n ≤ 50 }
{
    Sums {
        n: x.n + y.n,
        s: x.s + y.s,
        q: x.q + y.q,
    }
}

impl Tallying for Tally {
    type Reading = i32;

    type Numbers = Sums;

    ghost kept = { kept };

    ghost laws = { variables_laws };

    ghost of = { λ t. t.sums };

    ghost stands = { sound };

    ghost decided = { λ x. decides (sound x) (λ e. (record { sums = x; ok = sound_from x e }, refl)) (λ p. subst (λ y. sound y ≡ true) p.1 (sound_to p.0.sums p.0.ok)) };

    fn numbers(self) -> Sums {
        self.sums
    }

    fn made(x: Sums) -> Option<Tally> {
        let size = x.s.unsigned_abs();
        let n = u64::from(x.n);
        if x.n > MOST_PLANNED || size > SIZE * n || x.q > SQUARE * n || n * x.q < size * size {
            None
        } else {
            Some(Tally { sums: x })
        }
    }

    fn blank() -> Tally {
        Tally {
            sums: Sums { n: 0, s: 0, q: 0 },
        }
    }

    fn takes(r: i32) -> bool {
        is_reading(r)
    }

    fn single(r: i32) -> Result<Tally, Fault> {
        if !is_reading(r) {
            return Err(Fault::ReadingNotTaken(0));
        }
        let size = u64::from(r.unsigned_abs());
        Ok(Tally {
            sums: Sums {
                n: 1,
                s: i64::from(r),
                q: size * size,
            },
        })
    }

    #[tactic(auto, using(crate::proofs::Sound::sound_together))]
    fn join(self, other: Tally) -> Result<Tally, Fault> {
        let (x, y) = (self.sums, other.sums);
        if x.n + y.n > MOST_PLANNED {
            return Err(Fault::TallyFull(0));
        }
        Ok(Tally { sums: plus(x, y) })
    }

    fn count(self) -> u32 {
        self.numbers().n
    }
}
