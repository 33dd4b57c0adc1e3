// Tallies of marks: what is kept of the marks of a sample. A mark says whether a unit conforms.
ghost use Rattle.attributes.specs.Counts.{Sound, kept, sound};
ghost use Rattle.attributes.specs.Laws.{counts_laws};
ghost use Rattle.attributes.specs.Tested.{sound_from, sound_to};
ghost use Rattle.method.proofs.Tallies.{decides};
ghost use Rattle.std.proofs.Common.{subst};
ghost use Rattle.std.specs.Prelude.{◌≡◌, true, refl};

use crate::counts::Counts;
use fault::Fault;
use inspection::tallying::Tallying;
use method::MOST_PLANNED;

// Numbers such as at most 50 marks may have.
#[derive(Clone, Copy)]
pub struct MarkTally {
    counts: Counts,
    ghost ok: { Sound counts },
}

impl Tallying for MarkTally {
    type Reading = bool;

    type Numbers = Counts;

    ghost kept = { kept };

    ghost laws = { counts_laws };

    ghost of = { λ t. t.counts };

    ghost stands = { sound };

    ghost decided = { λ x. decides (sound x) (λ e. (record { counts = x; ok = sound_from x e }, refl)) (λ p. subst (λ y. sound y ≡ true) p.1 (sound_to p.0.counts p.0.ok)) };

    fn numbers(self) -> Counts {
        self.counts
    }

    fn made(x: Counts) -> Option<MarkTally> {
        if x.n > MOST_PLANNED || x.z > x.n {
            None
        } else {
            Some(MarkTally { counts: x })
        }
    }

    fn blank() -> MarkTally {
        MarkTally {
            counts: Counts { n: 0, z: 0 },
        }
    }

    fn takes(_conforms: bool) -> bool {
        true
    }

    fn single(conforms: bool) -> Result<MarkTally, Fault> {
        let z = u32::from(!conforms);
        Ok(MarkTally {
            counts: Counts { n: 1, z },
        })
    }

    fn join(self, other: MarkTally) -> Result<MarkTally, Fault> {
        let (x, y) = (self.counts, other.counts);
        if x.n + y.n > MOST_PLANNED {
            return Err(Fault::TallyFull(0));
        }
        Ok(MarkTally {
            counts: Counts {
                n: x.n + y.n,
                z: x.z + y.z,
            },
        })
    }

    fn count(self) -> u32 {
        self.numbers().n
    }
}
