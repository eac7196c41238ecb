// The reader of terms and declarations: a loop over a state by value, with rows and open frames in lent tables.
// The port of `Parser` in surface/parser.rs.
#![tactic(auto)]

ghost use Rattle.std.specs.Prelude.{◌≡◌, ◌<◌, ◌≤◌, length, Some, None};
ghost use Rattle.expects.specs.Formats.{edition};
ghost use Rattle.term_rows.specs.TermRows.{pushed_row, ReadsTerm as ReadsByLengths};
ghost use Rattle.parser.specs.Machine.{setting, pushed_term, TermInside, Steps, ready, ReadsTerm};

use expects::{Input, TermStart};
use term_rows::ReadTerm;
use token::{Class, Refusal};

// "more than 512 frames open in one term" are refused.
const FRAMES: usize = 512;

// The words of so many frames.
const AREA: usize = 5632;

// Between two steps of reading a term: where reading goes on, how many rows are stored, how many frames are open and how many
// were at most, and the row of a term that has just been completed.
#[derive(Clone, Copy, Debug, PartialEq, Eq)]
pub struct State {
    pub at: usize,
    pub rows: usize,
    pub depth: usize,
    pub deepest: usize,
    pub value: Option<u32>,
}

// A completed term becomes the next row, where there is room for one more. Reading goes on in the state behind it.
fn push_term(
    table: &mut [u32],
    row: [u32; 8],
    behind: State,
    limit: usize,
) -> Result<State, Refusal>
    requires { behind.rows ≤ 4294967295 }
    ensures value { result ≡ pushed_term limit behind.rows behind.at behind.depth behind.deepest }
    ensures table_after { table.new ≡ pushed_row limit table.old behind.rows row }
{
    let rows = behind.rows;
    if rows < limit {
        rows::store_row(table, rows, row);
        return Ok(State {
            rows: rows + 1,
            value: Some(rows as u32),
            ..behind
        });
    }
    Err(Refusal::nowhere(Class::SurfaceFull))
}

// A term is to be read: all of it, or a new frame.
fn term_step(
    input: &Input,
    table: &mut [u32],
    work: &mut [u32],
    st: State,
    limit: usize,
) -> Result<State, Refusal>
    requires term_inside { TermInside 512 input.now.bytes.now work.old st }
    requires no_value { st.value ≡ None }
    ensures { Steps input.now.bytes.now (setting (edition input.now.format) input.now.bytes.now limit) table.old work.old st result table.new work.new }
{
    match input.begin_term(st.at)? {
        TermStart::Leaf(label, next) => {
            let row = term_rows::term_row(label, [0; 6], 0, input.format);
            push_term(table, row, State { at: next, ..st }, limit)
        }
        TermStart::Frame(label, next) => {
            if st.depth < FRAMES {
                let open = st.depth + 1;
                frames::open_frame(work, st.depth, label);
                return Ok(State {
                    at: next,
                    rows: st.rows,
                    depth: open,
                    deepest: st.deepest.max(open),
                    value: None,
                });
            }
            Err(Refusal::nowhere(Class::Frames))
        }
    }
}

// A term is complete and a frame is open, which takes its row. With its last argument the form is complete.
fn value_step(
    input: &Input,
    table: &mut [u32],
    work: &mut [u32],
    st: State,
    value: u32,
    limit: usize,
) -> Result<State, Refusal>
    requires term_inside { TermInside 512 input.now.bytes.now work.old st }
    requires complete { st.value ≡ Some value }
    requires depth_nonzero { 0 < st.depth }
    ensures { Steps input.now.bytes.now (setting (edition input.now.format) input.now.bytes.now limit) table.old work.old st result table.new work.new }
{
    let depth = st.depth - 1;
    frames::push_arg(work, depth, value);
    let len = frames::frame_len(work, depth);
    if len < rows::arity(frames::frame_kind(work, depth)) {
        return Ok(State { value: None, ..st });
    }
    let close = input.expect_rparen(st.at)?;
    let f = frames::load_frame(work, depth);
    let row = term_rows::term_row(f.label, f.args, f.len, input.format);
    let at = close.end;
    push_term(table, row, State { at, depth, ..st }, limit)
}

// A call outside the bounds, or with less than the words of the frames, reads nothing.
fn is_ready(source: usize, area: usize, at: usize, rows: usize) -> bool
    ensures { result ≡ ready source area at rows }
{
    AREA <= area && term_rows::is_within(source, at, rows)
}

// The port of `parse_term`: a whole type or body of a format from `at` on, behind the rows that are stored, where there is room for
// `limit` rows. A table that has no place for them leaves them out, and they are counted all the same.
pub fn read_term(
    input: &Input,
    table: &mut [u32],
    work: &mut [u32],
    at: usize,
    rows: usize,
    limit: usize,
) -> Result<ReadTerm, Refusal>
    ensures term { ReadsTerm (edition input.now.format) limit input.now.bytes.now table.old work.old at rows result table.new }
    ensures by_lengths { 5632 ≤ length work.old → ReadsByLengths (edition input.now.format) limit input.now.bytes.now table.old at rows result table.new }
{
    if !is_ready(input.bytes.len(), work.len(), at, rows) {
        return Err(Refusal::nowhere(Class::WorkShort));
    }
    let mut st = State {
        at,
        rows,
        depth: 0,
        deepest: 0,
        value: None,
    };
    loop {
        st = match st.value {
            None => term_step(input, table, work, st, limit)?,
            Some(value) if 0 < st.depth => value_step(input, table, work, st, value, limit)?,
            // A term is complete and no frame is open.
            Some(row) => {
                return Ok(ReadTerm {
                    row,
                    rows: st.rows,
                    next: st.at,
                    frames: st.deepest,
                });
            }
        };
    }
}
