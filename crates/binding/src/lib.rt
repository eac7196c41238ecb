// What binds a reference: the answer of the question for it, with its definitions and theorems. Document 02, Req 04.
#![tactic(auto)]

// A local, with how many binders stand between the reference and the one that binds it, and the row of that binder's form; or a global one,
// with the declaration's place.
#[derive(Clone, Copy, Debug, PartialEq, Eq)]
pub enum Binder {
    Local { count: usize, row: usize },
    Global { place: usize },
}
