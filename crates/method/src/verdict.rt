// What is said of a lot, and the one comparison that verdicts come from.
ghost use Rattle.std.specs.Prelude.{◌≡◌, Some};
ghost use Rattle.method.specs.Verdicts.{compared, found, lower, words, yes};

use std::fmt;

// The lower verdict stands first.
#[derive(Clone, Copy, PartialEq, Eq, PartialOrd, Ord, Debug)]
pub enum Verdict {
    NotAccepted,
    Accepted,
}

// Accepted where it is true.
impl From<bool> for Verdict {
    ghost from_gives = { λ b v. v ≡ found b };

    fn from(holds: bool) -> Verdict {
        if holds {
            Verdict::Accepted
        } else {
            Verdict::NotAccepted
        }
    }
}

impl fmt::Display for Verdict {
    ghost output = { λ v. Some (words v) };

    fn fmt<W: fmt::Write>(&self, f: &mut fmt::Formatter<W>) -> fmt::Result {
        f.write_str(match self {
            Verdict::Accepted => "accepted",
            Verdict::NotAccepted => "not accepted",
        })
    }
}

impl Verdict {
    pub fn is_yes(self) -> bool
        ensures { result ≡ yes self }
    {
        self == Verdict::Accepted
    }

    // Accepted when the left number is at most the right one.
    pub fn at_most(left: i64, right: i64) -> Verdict
        ensures { result ≡ compared left right }
    {
        Verdict::from(left <= right)
    }

    // The lower of two verdicts: accepted when both are.
    pub fn lower(self, other: Verdict) -> Verdict
        ensures { result ≡ lower self other }
    {
        self.min(other)
    }
}
