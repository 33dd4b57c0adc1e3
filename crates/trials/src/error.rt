// What ends the trials.
use fault::Fault;
use method::verdict::Verdict;
use std::alloc::{AllocError, AllocFailed};
use std::error::Error;
use std::num::TryFromIntError;
use std::{fmt, io};

#[derive(Clone, Copy, Debug)]
pub enum TrialError {
    // A call on the bench was answered otherwise than was expected.
    Answer {
        given: Result<(), Fault>,
        expected: Result<(), Fault>,
    },
    // The bench and the second calculation differ.
    Verdict {
        bench: Verdict,
        second: Verdict,
    },
    // The plan's method or its bench was refused.
    Plan(Fault),
    // A number of the second calculation passes 128 bits, or a list is too long to number.
    TooLarge,
    // The second calculation has no fractile for so many readings.
    NoFractile,
    Memory,
    Output,
}

// The number by which a call was refused, as it is printed; 0 where it was granted.
fn number(answer: Result<(), Fault>) -> u8 {
    answer.map_or_else(Fault::number, |_| 0)
}

impl fmt::Display for TrialError {
    fn fmt<W: fmt::Write>(&self, f: &mut fmt::Formatter<W>) -> fmt::Result {
        match *self {
            TrialError::Answer { given, expected } => {
                let (given, expected) = (number(given), number(expected));
                write!(f, "the bench answers {given}, expected was {expected}")
            }
            TrialError::Verdict { bench, second } => {
                write!(
                    f,
                    "{bench} by the bench, {second} by the second calculation"
                )
            }
            TrialError::Plan(fault) => {
                let number = fault.number();
                write!(f, "the plan is refused by {number}")
            }
            TrialError::TooLarge => f.write_str("a number is too large"),
            TrialError::NoFractile => f.write_str("no fractile is known for so many readings"),
            TrialError::Memory => f.write_str("no memory is left"),
            TrialError::Output => f.write_str("nothing can be printed"),
        }
    }
}

impl Error for TrialError {}

impl From<Fault> for TrialError {
    fn from(fault: Fault) -> TrialError {
        TrialError::Plan(fault)
    }
}

impl From<TryFromIntError> for TrialError {
    fn from(_e: TryFromIntError) -> TrialError {
        TrialError::TooLarge
    }
}

impl From<AllocError> for TrialError {
    fn from(_e: AllocError) -> TrialError {
        TrialError::Memory
    }
}

impl<T: Drop> From<AllocFailed<T>> for TrialError {
    fn from(_e: AllocFailed<T>) -> TrialError {
        TrialError::Memory
    }
}

impl From<io::Error> for TrialError {
    fn from(_e: io::Error) -> TrialError {
        TrialError::Output
    }
}
