// The form of each letter.
ghost use Rattle.std.specs.Prelude.{◌≡◌};
ghost use Rattle.entry.specs.Forms.{mark_of, plan_of, said_of};
ghost use Rattle.entry.specs.Spelled.{Spelled};

use crate::kinds::{Plan, Said};
use crate::numbers::numbers;
use fault::Fault;

// The plan that a letter, a byte of the sheet, and the text behind it are.
fn plan(letter: u8, text: &[u8]) -> Result<Plan, Fault>
    ensures { result ≡ plan_of letter text.now }
{
    match letter {
        b'K' => {
            let [n, limit, sigma, k] = numbers::<4>(text)?;
            Ok(Plan::Known { n, limit, sigma, k })
        }
        b'U' => {
            let [n, limit, k] = numbers::<3>(text)?;
            Ok(Plan::Unknown { n, limit, k })
        }
        b'W' => {
            let [n, lower, upper, k] = numbers::<4>(text)?;
            Ok(Plan::Window { n, lower, upper, k })
        }
        b'A' => {
            let [n, most] = numbers::<2>(text)?;
            Ok(Plan::Marks { n, most })
        }
        b'G' => {
            let [n, low, high, most] = numbers::<4>(text)?;
            Ok(Plan::Gauged { n, low, high, most })
        }
        b'T' => {
            let [n, mean] = numbers::<2>(text)?;
            Ok(Plan::Mean { n, mean })
        }
        b'V' => {
            let [n] = numbers::<1>(text)?;
            Ok(Plan::Paired { n })
        }
        _ => Err(Fault::EntryForm(0)),
    }
}

// Whether a mark says that a unit conforms.
fn mark(text: &[u8]) -> Result<bool, Fault>
    ensures { result ≡ mark_of text.now }
{
    match text {
        [b'+'] => Ok(true),
        [b'-'] => Ok(false),
        _ => Err(Fault::EntryForm(0)),
    }
}

// What the text of an entry says: a letter directly followed by what its form asks.
#[tactic(auto, using(crate::proofs::Spelt::spelled_from))]
pub fn said(text: &[u8]) -> Result<Said, Fault>
    ensures value { result ≡ said_of text.now }
    ensures spelled { Spelled text.now result }
{
    match text {
        [b'D', rest @ ..] => {
            let [name] = numbers::<1>(rest)?;
            Ok(Said::Drum(name))
        }
        [b'R', rest @ ..] => {
            let [reading] = numbers::<1>(rest)?;
            Ok(Said::Reading(reading))
        }
        [b'P', rest @ ..] => {
            let [first, second] = numbers::<2>(rest)?;
            Ok(Said::Pair(first, second))
        }
        [b'M', rest @ ..] => Ok(Said::Mark(mark(rest)?)),
        [letter, rest @ ..] => Ok(Said::Planned(plan(*letter, rest)?)),
        [] => Err(Fault::EntryForm(0)),
    }
}
