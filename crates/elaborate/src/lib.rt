// Names become numbers: each core row is written at its surface row's number, with a var or a global for each reference.
// The port of `elaborate_surface` and `elaborate_term` in surface/elaborate.rs. Document 01, "The core module".
#![tactic(auto)]

ghost use Rattle.std.specs.Prelude.{◌≡◌, ◌↔◌, IsTrue, Ok, List, [], ◌∷◌, ◌++◌, ◌+◌, ◌-◌, ◌*◌, ◌<◌, ◌≤◌, length, get_or, take};
ghost use Rattle.token.specs.declared.Class.{Class};
ghost use Rattle.terms.specs.Forms.{ref, arity_of};
ghost use Rattle.terms.specs.Label.{Declaration};
ghost use Rattle.terms.specs.Resolution.{core_of};
ghost use Rattle.terms.specs.Rows.{core_words};
ghost use Rattle.scope.specs.Scope.{local_names, declared_names};
ghost use Rattle.scope.specs.Index.{Indexed};
ghost use Rattle.stacks.specs.Stacks.{names_room, values_room, works_room, works_in, WorkArea, WorkPushed, LocalPushed};
ghost use Rattle.elaborate.specs.RowTerm.{row_word, label_at, six_at, row_term};
ghost use Rattle.elaborate.specs.Machine.{Six, scheduled_one, scheduled, FormScheduled, Room, RowsInside, RowDone, core_of_found, ReferenceDone, without_arguments, form_row, WorkStepped, Answered};
ghost use Rattle.elaborate.specs.Loadable.{Loadable, Elaborates};
ghost use Rattle.elaborate.specs.Declarations.{Fitting, Blank, record_outcome, declaration_outcome, Declared};

use scope::{Referent, Slot};
use stacks::Work;
use tables::word_at;
use terms::Label;
use token::Class;

// The kinds that resolution tells apart: a reference among terms, a postulate among declarations. Rows and records hold them as words, which C reads.
const REF: u32 = 24;

const POSTULATE: u32 = 1;

// "7 more than 512 frames open in one term"
const FORMS: u32 = 512;

// How many words a row and a declaration record have.
const ROW: usize = 8;

const RECORD: usize = 5;

// What is resolved: a source, and the surface rows and declaration records that were read of it. There are so many rows.
#[derive(Clone, Copy)]
struct Module<'a> {
    source: &'a [u8],
    surface: &'a [u32],
    declarations: &'a [u32],
    rows: usize,
}

// How many work items, values and local binders there are.
#[derive(Clone, Copy, Debug, PartialEq, Eq)]
struct State {
    works: usize,
    values: usize,
    locals: usize,
}

// The name of a reference that nothing has.
#[derive(Clone, Copy, Debug, PartialEq, Eq)]
struct UnknownName {
    start: u32,
    length: u32,
}

// A row that is not there and a form too many, which no table that was read has, count as an unknown reference without a name.
const NAMELESS: UnknownName = UnknownName {
    start: 0,
    length: 0,
};

// A name that is refused, with the class of its refusal: a duplicate where an earlier declaration has it, unknown where nothing has it.
#[derive(Clone, Copy, Debug, PartialEq, Eq)]
pub struct RefusedName {
    pub class: Class,
    pub start: u32,
    pub length: u32,
}

impl From<UnknownName> for RefusedName {
    ghost from_gives = { λ unknown refused. refused ≡ record { class = Class.UnknownName; start = unknown.start; length = unknown.length } };

    fn from(unknown: UnknownName) -> RefusedName {
        RefusedName {
            class: Class::UnknownName,
            start: unknown.start,
            length: unknown.length,
        }
    }
}

// What a surface row says of its term.
fn label_at(surface: &[u32], id: usize) -> Label
    requires { id * 8 + 8 ≤ length surface.now }
    ensures { result ≡ label_at surface.now id }
{
    let a = id * ROW;
    Label {
        kind: surface[a],
        start: surface[a + 1],
        length: surface[a + 2],
        offset: surface[a + 7],
    }
}

// The words of a surface row that can hold children: behind a span there are at most two.
#[tactic(auto, unfolding(crate::specs::RowTerm::six_at))]
fn row_children(surface: &[u32], id: usize, span: bool) -> [u32; 6]
    requires { id * 8 + 8 ≤ length surface.now }
    ensures { result ≡ six_at surface.now id span }
{
    let a = id * ROW;
    if span {
        return [surface[a + 3], surface[a + 4], 0, 0, 0, 0];
    }
    [
        surface[a + 1],
        surface[a + 2],
        surface[a + 3],
        surface[a + 4],
        surface[a + 5],
        surface[a + 6],
    ]
}

// One argument of the form at row `form` on top of t work items.
fn schedule_one(work: &mut [u32], t: usize, covered: bool, form: u32, row: u32, left: u32) -> usize
    requires { (t + 3 ≤ works_room) × WorkArea work.old }
    ensures { (result ≤ t + 3) × WorkPushed work.old work.new result (scheduled_one covered form left row (works_in work.old t)) }
{
    if covered {
        stacks::push_work(work, t, Work::PopLocal);
        stacks::push_work(work, t + 1, Work::Eval { row, left });
        stacks::push_work(work, t + 2, Work::PushLocal { row: form });
        return t + 3;
    }
    stacks::push_work(work, t, Work::Eval { row, left });
    t + 1
}

// The n arguments of the form at row `form` on top of t work items, the first on top.
fn schedule(
    work: &mut [u32],
    t: usize,
    kind: u32,
    form: u32,
    children: [u32; 6],
    n: usize,
    left: u32,
) -> usize
    requires { (n ≤ 6) × Six children × (t + 18 ≤ works_room) × WorkArea work.old }
    ensures { WorkPushed work.old work.new result (scheduled kind form left 0 (take n children) (works_in work.old t)) }
{
    let mut top = t;
    for i in (0..n).rev() {
        let covered = rows::covers(kind, i);
        top = schedule_one(work, top, covered, form, children[i], left);
    }
    top
}

// A form's arguments on top of its Build.
fn schedule_form(
    surface: &[u32],
    work: &mut [u32],
    st: State,
    kind: u32,
    id: u32,
    left: u32,
) -> State
    requires { (id * 8 + 8 ≤ length surface.now) × (st.works + 19 ≤ works_room) × WorkArea work.old }
    ensures { FormScheduled surface.now kind id left st work.old result work.new }
{
    let n = rows::arity(kind) as usize;
    let children = row_children(surface, id as usize, rows::holds_span(kind));
    let build = Work::Build {
        kind: rows::core_kind(kind),
        row: id,
    };
    stacks::push_work(work, st.works, build);
    let works = schedule(work, st.works + 1, kind, id, children, n, left);
    State { works, ..st }
}

// A core row is stored at its own number, which becomes one more value.
fn finish(core: &mut [u32], work: &mut [u32], st: State, id: u32, row: [u32; 8]) -> State
    requires { (st.values < values_room) × WorkArea work.old }
    ensures { RowDone id row st core.old work.old result core.new work.new }
{
    rows::store_row(core, id as usize, row);
    stacks::push_value(work, st.values, id);
    State {
        values: st.values + 1,
        ..st
    }
}

// The core row of a reference with this label.
fn found_row(referent: Referent, label: Label) -> [u32; 8]
    ensures { result ≡ core_words label (core_of_found referent) [] }
{
    match referent {
        Referent::Local(local) => rows::reference_row(1, local.count, label.offset),
        Referent::Global(place) => rows::reference_row(2, place, label.offset),
    }
}

// A reference becomes a var or a global.
fn eval_reference(
    m: Module,
    core: &mut [u32],
    work: &mut [u32],
    index: &[u16],
    st: State,
    id: u32,
    d: usize,
    label: Label,
) -> Result<State, UnknownName>
    requires locals_le_names_room { (st.locals ≤ names_room) × (st.values < values_room) × (d ≤ 4294967295) × WorkArea work.old × Indexed m.source.now m.declarations.now d index.now }
    requires kind_value { label.kind ≡ ref }
    ensures { ReferenceDone (core_of m.entry.source.now (local_names m.entry.source.now work.old st.locals)
        (declared_names m.entry.source.now m.entry.declarations.now 0 d) label) label id st core.old work.old result core.new work.new }
{
    let found = scope::find_name(
        m.source,
        work,
        m.declarations,
        index,
        st.locals,
        d,
        label.start,
        label.length,
    );
    let Some(referent) = found else {
        return Err(UnknownName {
            start: label.start,
            length: label.length,
        });
    };
    Ok(finish(core, work, st, id, found_row(referent, label)))
}

// The row of a form at an offset, with arguments of which those that are not there are 0.
fn form_row(kind: u32, args: [u32; 6], offset: u32) -> [u32; 8]
    requires { Six args }
    ensures { result ≡ kind ∷ args ++ (offset ∷ []) }
{
    [
        kind, args[0], args[1], args[2], args[3], args[4], args[5], offset,
    ]
}

// The row of a form, of this kind in the core, whose arguments' rows are the values on top.
fn build_term(
    surface: &[u32],
    core: &mut [u32],
    work: &mut [u32],
    st: State,
    kind: u32,
    id: u32,
) -> State
    requires { (arity_of kind ≤ st.values) × (st.values ≤ arity_of kind + 2560) × WorkArea work.old }
    ensures { RowDone id (form_row surface.now kind id st work.old) (without_arguments kind st) core.old work.old result core.new work.new }
{
    let n = rows::arity(kind) as usize;
    let below = State {
        values: st.values - n,
        ..st
    };
    let args = stacks::pop_values(work, below.values, n);
    let row = form_row(kind, args, rows::row_offset(surface, id));
    finish(core, work, below, id, row)
}

// A row is to be resolved, in which `left` forms may still be opened.
fn eval(
    m: Module,
    core: &mut [u32],
    work: &mut [u32],
    index: &[u16],
    st: State,
    id: u32,
    left: u32,
    d: usize,
) -> Result<State, UnknownName>
    requires rows_inside { RowsInside m.source.now m.surface.now m.declarations.now index.now work.old m.rows d }
    requires room { Room (Work.Eval id left ∷ works_in work.old st.works) st.values st.locals }
    ensures { WorkStepped m.entry.source.now m.entry.surface.now m.entry.declarations.now m.entry.rows d (Work.Eval id left ∷ works_in work.old st.works) work.old st core.old result core.new work.new }
{
    let k = id as usize;
    if m.rows <= k {
        return Err(NAMELESS);
    }
    let label = label_at(m.surface, k);
    let kind = label.kind;
    if kind == REF {
        return eval_reference(m, core, work, index, st, id, d, label);
    }
    if rows::arity(kind) == 0 {
        let row = rows::core_row(label, [0, 0, 0, 0, 0, 0], 0);
        return Ok(finish(core, work, st, id, row));
    }
    if left == 0 {
        return Err(NAMELESS);
    }
    Ok(schedule_form(m.surface, work, st, kind, id, left - 1))
}

// The binder of the form at row `form` comes into scope.
fn enter_binder(surface: &[u32], work: &mut [u32], st: State, form: u32) -> State
    requires { (st.locals < names_room) × WorkArea work.old }
    ensures { (result ≡ record { works = st.works; values = st.values; locals = st.locals + 1 }) × LocalPushed work.old work.new st.locals (get_or surface.now (form * 8) 0) (row_word surface.now form 1) (row_word surface.now form 2) form }
{
    let at = form as usize * ROW;
    let kind = word_at(surface, at);
    let start = word_at(surface, at + 1);
    let length = word_at(surface, at + 2);
    stacks::push_local(work, st.locals, kind, start, length, form);
    State {
        locals: st.locals + 1,
        ..st
    }
}

// The work item on top.
fn work_step(
    m: Module,
    core: &mut [u32],
    work: &mut [u32],
    index: &[u16],
    st: State,
    d: usize,
) -> Result<State, UnknownName>
    requires rows_inside { RowsInside m.source.now m.surface.now m.declarations.now index.now work.old m.rows d }
    requires room { Room (works_in work.old st.works) st.values st.locals }
    requires works_nonzero { (0 < st.works) × (st.works ≤ works_room) }
    ensures { WorkStepped m.entry.source.now m.entry.surface.now m.entry.declarations.now m.entry.rows d (works_in work.old st.works) work.old st core.old result core.new work.new }
{
    let below = State {
        works: st.works - 1,
        ..st
    };
    match stacks::pop_work(work, below.works) {
        Work::Eval { row, left } => eval(m, core, work, index, below, row, left, d),
        Work::PushLocal { row } => Ok(enter_binder(m.surface, work, below, row)),
        Work::PopLocal => Ok(State {
            locals: below.locals - 1,
            ..below
        }),
        Work::Build { kind, row } => Ok(build_term(m.surface, core, work, below, kind, row)),
    }
}

// The term at row `root` is the one work item.
fn begin_term(work: &mut [u32], root: u32) -> State
    requires { WorkArea work.old }
    ensures { (result ≡ record { works = 1; values = 0; locals = 0 }) × WorkPushed work.old work.new (0 + 1) (Work.Eval root 512 ∷ works_in work.old 0) }
{
    let item = Work::Eval {
        row: root,
        left: FORMS,
    };
    stacks::push_work(work, 0, item);
    State {
        works: 1,
        values: 0,
        locals: 0,
    }
}

// The core rows of the term at row `root`, in which the first d declarations are seen.
fn elaborate_term(
    m: Module,
    core: &mut [u32],
    work: &mut [u32],
    index: &[u16],
    root: u32,
    d: usize,
) -> Result<(), UnknownName>
    requires { RowsInside m.source.now m.surface.now m.declarations.now index.now work.old m.rows d }
    ensures { Answered (row_term m.entry.source.now m.entry.surface.now m.entry.declarations.now m.entry.rows d 512 root [] core.old) result core.new }
{
    let mut st = begin_term(work, root);
    while 0 < st.works {
        // Not by `?`, which moves each step's answer through memory: a load then takes a quarter longer.
        match work_step(m, core, work, index, st, d) {
            Ok(next) => st = next,
            Err(unknown) => return Err(unknown),
        }
    }
    Ok(())
}

// The type of the declaration at place d, and its body if the kind has one.
fn elaborate_parts(
    m: Module,
    core: &mut [u32],
    work: &mut [u32],
    index: &[u16],
    d: usize,
) -> Result<(), UnknownName>
    requires rows_inside { RowsInside m.source.now m.surface.now m.declarations.now index.now work.old m.rows d }
    requires d_in_bounds { d * 5 + 5 ≤ length m.declarations.now }
    ensures { Answered (record_outcome m.entry.source.now m.entry.surface.now m.entry.declarations.now m.entry.rows d core.old) result core.new }
{
    let kind = m.declarations[d * RECORD];
    let ty = m.declarations[d * RECORD + 3];
    let body = m.declarations[d * RECORD + 4];
    elaborate_term(m, core, work, index, ty, d)?;
    if kind == POSTULATE {
        return Ok(());
    }
    elaborate_term(m, core, work, index, body, d)
}

// The declaration at place d: its name is new among those before it, and then its type and its body are resolved, and its name goes into the index.
fn declaration_step(
    m: Module,
    core: &mut [u32],
    work: &mut [u32],
    index: &mut [u16],
    d: usize,
) -> Result<(), RefusedName>
    requires rows_inside { RowsInside m.source.now m.surface.now m.declarations.now index.old work.old m.rows d }
    requires d_in_bounds { d * 5 + 5 ≤ length m.declarations.now }
    ensures declared { Declared (declaration_outcome m.entry.source.now m.entry.surface.now m.entry.declarations.now m.entry.rows d core.old) result core.new }
    ensures indexed { result ≡ Ok tt → Indexed m.entry.source.now m.entry.declarations.now (d + 1) index.new }
{
    let start = m.declarations[d * RECORD + 1];
    let length = m.declarations[d * RECORD + 2];
    match scope::find_indexed(m.source, m.declarations, index, d, start, length) {
        Slot::Held(_) => Err(RefusedName {
            class: Class::DuplicateName,
            start,
            length,
        }),
        Slot::Free(slot) => {
            elaborate_parts(m, core, work, index, d)?;
            scope::enter(index, slot, d);
            Ok(())
        }
    }
}

// Whether the tables are long enough for so many rows and declarations.
fn fitting(m: Module, work: &[u32], count: usize) -> bool
    ensures { IsTrue result ↔ Fitting m.entry.surface.now m.entry.declarations.now work.now m.entry.rows count }
{
    stacks::AREA <= work.len()
        && m.rows <= m.surface.len() / ROW
        && count <= m.declarations.len() / RECORD
        && count <= 4294967296
}

// The core rows of a module's declarations, each of which goes into the index of names for those behind it.
fn elaborate_declarations(
    m: Module,
    core: &mut [u32],
    work: &mut [u32],
    index: &mut [u16],
    count: usize,
) -> Result<(), RefusedName>
    requires fitting { Fitting m.surface.now m.declarations.now work.old m.rows count }
    requires blank { Blank index.old }
    ensures { (ds : List Declaration) → Loadable m.entry.surface.now m.entry.declarations.now core.old work.old m.entry.rows count ds
        → Elaborates m.entry.source.now ds m.entry.rows core.old result core.new }
{
    for d in 0..count {
        declaration_step(m, core, work, index, d)?;
    }
    Ok(())
}

// The core rows of a module's declarations, from their surface rows and records. Tables too short for what they should hold are refused.
pub fn elaborate_surface(
    s: &[u8],
    surface: &[u32],
    declarations: &[u32],
    core: &mut [u32],
    work: &mut [u32],
    rows: usize,
    count: usize,
) -> Result<(), RefusedName>
    ensures { (ds : List Declaration) → Loadable surface.now declarations.now core.old work.old rows count ds → Elaborates s.now ds rows core.old result core.new }
{
    let m = Module {
        source: s,
        surface,
        declarations,
        rows,
    };
    if !fitting(m, work, count) {
        return Err(RefusedName {
            class: Class::Malformed,
            start: 0,
            length: 0,
        });
    }
    if count <= scope::FEW {
        let mut none = [0u16; 1];
        return elaborate_declarations(m, core, work, &mut none, count);
    }
    let mut index = [0u16; scope::INDEX];
    elaborate_declarations(m, core, work, &mut index, count)
}
