// Which entries of a sheet book a reading, for each kind of reading.
ghost use Rattle.std.specs.Prelude.{◌≡◌, Option as some_or_none};
ghost use Rattle.course.specs.Booked.{mark_in, number_in, pair_in};
ghost use Rattle.entry.specs.declared.kinds.Said.{Said as Entry};

use entry::Said;
use through::difference::Pair;

// No TryFrom: entries, numbers and pairs are types of other crates, so its impls may not stand here.
pub trait Booked: Sized {
    // the reading that an entry books
    ghost booked: { Entry → some_or_none Self };

    fn from_entry(said: Said) -> Option<Self>
        ensures { result ≡ booked said };
}

impl Booked for i32 {
    ghost booked = { number_in };

    fn from_entry(said: Said) -> Option<i32> {
        match said {
            Said::Reading(reading) => Some(reading),
            _ => None,
        }
    }
}

impl Booked for bool {
    ghost booked = { mark_in };

    fn from_entry(said: Said) -> Option<bool> {
        match said {
            Said::Mark(conforms) => Some(conforms),
            _ => None,
        }
    }
}

impl Booked for Pair {
    ghost booked = { pair_in };

    fn from_entry(said: Said) -> Option<Pair> {
        match said {
            Said::Pair(first, second) => Some(Pair { first, second }),
            _ => None,
        }
    }
}
