// The least storage for a source: the answer of the question for it, with its definition and theorems. Document 02, Req 08.
#![tactic(auto)]

// How many rows, declarations and open frames a source needs.
#[derive(Clone, Copy, Debug, PartialEq, Eq)]
pub struct Needs {
    pub rows: usize,
    pub declarations: usize,
    pub frames: usize,
}
