// The module's name, from the head of a source: the answer of the question for it, with its definition and theorems. Document 02, Req 07.
#![tactic(auto)]

// Where the name stands in the source, and how many bytes it has.
#[derive(Clone, Copy, Debug, PartialEq, Eq)]
pub struct Span {
    pub start: usize,
    pub length: usize,
}
