// Want of memory, as a fault that `?` makes.
ghost use Rattle.std.specs.Prelude.{◌≡◌};
ghost use Rattle.fault.specs.declared.Fault.TheVariants.{NoMemory};

use crate::Fault;
use std::alloc::{AllocError, AllocFailed};

impl From<AllocError> for Fault {
    ghost from_gives = { λ _ f. f ≡ NoMemory };

    fn from(_e: AllocError) -> Fault {
        Fault::NoMemory
    }
}

impl<T: Drop> From<AllocFailed<T>> for Fault {
    ghost from_gives = { λ _ f. f ≡ NoMemory };

    fn from(failed: AllocFailed<T>) -> Fault {
        Fault::from(AllocError::from(failed))
    }
}
