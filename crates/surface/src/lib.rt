// From a source to its module, and what loading it leaves: the answers, with their definitions and theorems.
#![tactic(auto)]

// How many rows and declarations an accepted source leaves.
#[derive(Clone, Copy, Debug, PartialEq, Eq)]
pub struct Loaded {
    pub rows: usize,
    pub declarations: usize,
}
