// The plain numbers of a tally: the count of its readings, their sum and the sum of their squares.
#[derive(Clone, Copy, Debug, PartialEq, Eq)]
pub struct Sums {
    pub n: u32,
    pub s: i64,
    pub q: u64,
}
