// Pages that are written and shifted.
ghost use Rattle.std.specs.Prelude.{◌≡◌, length, replicate, slice_set};
ghost use Rattle.rows.specs.Pages.{taken_out};

use crate::page::Page;

// Writes a page whole; past the row nothing changes.
#[tactic(auto, using(std::proofs::lemmas::List::set_past))]
pub fn put<N: Copy>(pages: &mut [Page<N>], i: usize, page: Page<N>)
    ensures { pages.new ≡ slice_set pages.old i page }
{
    // With get_mut nothing is known of the row that is left.
    if i < pages.len() {
        pages[i] = page;
    }
}

// Takes a page out: later pages move up by one, and `last` follows them. Past the row nothing changes.
pub fn take_out<N: Copy>(pages: &mut [Page<N>], at: usize, last: Page<N>)
    ensures { pages.new ≡ taken_out at last pages.old }
{
    if at < pages.len() {
        pages[at] = last;
        pages[at..].rotate_left(1);
    }
}

pub fn blank_all<N: Copy>(pages: &mut [Page<N>], blank: Page<N>)
    ensures { pages.new ≡ replicate (length pages.old) blank }
{
    pages.fill_with(|| blank);
}
