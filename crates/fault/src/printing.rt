// The line that a refusal is printed as.
ghost use Rattle.std.specs.Prelude.{Some};
ghost use Rattle.fault.specs.Printed.{printed};

use crate::Fault;
use std::fmt;

impl fmt::Display for Fault {
    ghost output = { λ f. Some (printed f) };

    fn fmt<W: fmt::Write>(&self, f: &mut fmt::Formatter<W>) -> fmt::Result {
        let number = self.number();
        let entry = self.entry();
        write!(f, "refused {number} {entry}")
    }
}
