// A drum's page: its name, and the plain numbers of its tally. A page with the name 0 is blank.
// The name is no Option: the rules give a blank page the name 0, and rows come from outside as they are.
#[derive(Clone, Copy, Debug, PartialEq, Eq)]
pub struct Page<N> {
    pub name: u32,
    pub numbers: N,
}
