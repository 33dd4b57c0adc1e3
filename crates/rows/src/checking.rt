// Whether a row is one that a bench can have left.
ghost use Rattle.std.specs.Prelude.{◌≡◌, false};
ghost use Rattle.rows.specs.Checks.{checked, in_order, once, room as room_of};

use crate::finding::place;
use crate::page::Page;
use fault::Fault;
use method::Method;

// The most pages of a row.
pub const MOST_PAGES: usize = 64;

// Whether no named page follows a blank one.
fn orderly<N>(pages: &[Page<N>]) -> bool
    ensures { result ≡ in_order false pages.now }
{
    let mut blank = false;
    for p in pages {
        if p.name == 0 {
            blank = true;
        } else if blank {
            return false;
        }
    }
    true
}

// Whether no name stands twice. A row is gone through by a `for` over its pages here and below, as the rules have it.
#[tactic(auto, using(std::proofs::lemmas::Grind::common_steps, crate::proofs::Steps::place_length))]
fn apart<N>(pages: &[Page<N>]) -> bool
    ensures { result ≡ once pages.now }
{
    for (i, p) in pages.iter().enumerate() {
        if p.name != 0 && place(&pages[i + 1..], p.name).is_some() {
            return false;
        }
    }
    true
}

// How many of n readings are still free; none where a page's numbers are no tally, a blank page has readings, or
// the counts together exceed n.
fn room<M: Method>(method: &M, n: u32, pages: &[Page<M::Numbers>]) -> Option<u32>
    ensures { result ≡ room_of (M.Method.meaning method.now) M.Method.stands n pages.now }
{
    let mut left = n;
    for p in pages {
        let count = method.count(method.tally(p.numbers)?);
        if p.name == 0 && count > 0 {
            return None;
        }
        left = left.checked_sub(count)?;
    }
    Some(left)
}

// How many of n readings are still free on a row that is consistent.
pub fn check<M: Method>(method: &M, n: u32, pages: &[Page<M::Numbers>]) -> Result<u32, Fault>
    ensures { result ≡ checked (M.Method.meaning method.now) M.Method.stands n pages.now }
{
    if !(1..=MOST_PAGES).contains(&pages.len()) {
        return Err(Fault::RowSize(0));
    }
    if !orderly(pages) || !apart(pages) {
        return Err(Fault::RowInconsistent(0));
    }
    room(method, n, pages).ok_or(Fault::RowInconsistent(0))
}
