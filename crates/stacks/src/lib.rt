// The stacks of `elaborate_term` in the lent work area: local binders, values and work items, each with a part of the 16,384 words.
// The port of `Work`, `push_work`, `push_value` and `pop_values` in surface/elaborate.rs.
#![tactic(auto)]

ghost use Rattle.std.specs.Prelude.{◌≡◌, cond, ◌∷◌, ◌+◌, ◌<◌, ◌≤◌, eqb, drop};
ghost use Rattle.terms.specs.Forms.{arrow};
ghost use Rattle.terms.specs.Rows.{pad};
ghost use Rattle.stacks.specs.Stacks.{works_room, values_room, names_room, works_in, values_in, work_of, WorkArea, WorkPushed, ValuePushed, LocalPushed};

// "11 work area under 16,384 words"
pub const AREA: usize = 16384;

// A local binder has two words from word 0 on, the start and length of its name, and one each from here on, its form's row and kind.
const ROWS: usize = 1024;

const KINDS: usize = 1536;

// Edition 0 2's arrow.
const ARROW: u32 = 25;

const VALUES: usize = 2048;

const WORKS: usize = 5120;

// An Eval keeps how many forms may still be opened in its row, a PushLocal the row of the form whose binder comes into scope, a Build the row
// that it is for and its kind in the core.
#[derive(Clone, Copy, Debug, PartialEq, Eq)]
pub enum Work {
    Eval { row: u32, left: u32 },
    PushLocal { row: u32 },
    PopLocal,
    Build { kind: u32, row: u32 },
}

// What a work item's first word says: numbers, since the lent work area is a table of words.
const EVAL: u32 = 0;

const PUSH_LOCAL: u32 = 1;

const POP_LOCAL: u32 = 2;

const BUILD: u32 = 3;

fn store_work(work: &mut [u32], t: usize, op: u32, a: u32, b: u32)
    requires { (t < works_room) × WorkArea work.old }
    ensures { WorkPushed work.old work.new (t + 1) (work_of op a b ∷ works_in work.old t) }
{
    let at = WORKS + t * 3;
    work[at] = op;
    work[at + 1] = a;
    work[at + 2] = b;
}

// One more work item, on top of t others.
#[tactic(auto, using(crate::proofs::Pushing::pushed_as), unfolding(crate::specs::Stacks::work_of))]
pub fn push_work(work: &mut [u32], t: usize, item: Work)
    requires { (t < works_room) × WorkArea work.old }
    ensures { WorkPushed work.old work.new (t + 1) (item ∷ works_in work.old t) }
{
    match item {
        Work::Eval { row, left } => store_work(work, t, EVAL, row, left),
        Work::PushLocal { row } => store_work(work, t, PUSH_LOCAL, row, 0),
        Work::PopLocal => store_work(work, t, POP_LOCAL, 0, 0),
        Work::Build { kind, row } => store_work(work, t, BUILD, kind, row),
    }
}

// The work item on top of t others.
#[tactic(auto, unfolding(crate::specs::Stacks::work_of, crate::specs::Stacks::works_in))]
pub fn pop_work(work: &[u32], t: usize) -> Work
    requires { (t < works_room) × WorkArea work.now }
    ensures { works_in work.now (t + 1) ≡ result ∷ works_in work.now t }
{
    let at = WORKS + t * 3;
    let a = work[at + 1];
    let b = work[at + 2];
    match work[at] {
        EVAL => Work::Eval { row: a, left: b },
        PUSH_LOCAL => Work::PushLocal { row: a },
        POP_LOCAL => Work::PopLocal,
        _ => Work::Build { kind: a, row: b },
    }
}

// One more value, on top of v others.
pub fn push_value(work: &mut [u32], v: usize, value: u32)
    requires { (v < values_room) × WorkArea work.old }
    ensures { ValuePushed work.old work.new v value }
{
    work[VALUES + v] = value;
}

// The n values on top of v others, the lowest first, and 0 for those that are not there.
pub fn pop_values(work: &[u32], v: usize, n: usize) -> [u32; 6]
    requires { (v ≤ values_room) × (n ≤ 6) × WorkArea work.now }
    ensures { result ≡ pad 6 (drop v (values_in work.now (v + n))) }
{
    let at = VALUES + v;
    let mut values = [0; 6];
    values[..n].copy_from_slice(&work[at..at + n]);
    values
}

// An arrow binds no name: with the length 0 the walk over names passes it by at once.
fn name_length(kind: u32, length: u32) -> u32
    ensures { result ≡ cond (eqb kind arrow) 0 length }
{
    if kind == ARROW { 0 } else { length }
}

// One more binder, of a form of some kind, inside of l others.
#[tactic(auto, using(crate::proofs::Pushing::local_pushed))]
pub fn push_local(work: &mut [u32], l: usize, kind: u32, start: u32, length: u32, row: u32)
    requires { (l < names_room) × WorkArea work.old }
    ensures { LocalPushed work.old work.new l kind start length row }
{
    let at = l * 2;
    work[at] = start;
    work[at + 1] = name_length(kind, length);
    work[ROWS + l] = row;
    work[KINDS + l] = kind;
}
