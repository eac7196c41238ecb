// Terms with names, what their references mean, and their rows: definitions and theorems, and the record that is kept of a term.
#![tactic(auto)]

// A term's kind, the start and length of its name, numeral or binder, and its first byte's offset.
#[derive(Clone, Copy, Debug, PartialEq, Eq)]
pub struct Label {
    pub kind: u32,
    pub start: u32,
    pub length: u32,
    pub offset: u32,
}
