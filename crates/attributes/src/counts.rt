// The plain numbers of a tally of marks: the count of its marks, and how many say that a unit does not conform.
#[derive(Clone, Copy, Debug, PartialEq, Eq)]
pub struct Counts {
    pub n: u32,
    pub z: u32,
}
