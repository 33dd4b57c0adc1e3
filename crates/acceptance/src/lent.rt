// The rows of pages that a sheet is carried out on.
use attributes::counts::Counts;
use rows::Page;
use variables::sums::Sums;

// Three lent rows, of which a plan uses one: with the numbers of one tally of readings on a page under K, U, T and V, of
// two under W, and of a tally of marks under A and G.
#[derive(Drop)]
pub struct Rows<'a, 'b, 'c> {
    pub singles: &'a mut [Page<Sums>],
    pub doubles: &'b mut [Page<(Sums, Sums)>],
    pub counts: &'c mut [Page<Counts>],
}
