// The plain reader of terms: a term reads its arguments, and the arguments read terms. Begin here to learn how a source is read.
//
// The productions, in the order of the grammar (crates/surface/specs/Grammar.antt) and of the reading order made of it
// (crates/surface/specs/Reading.antt), with the functions that read them. What stands above a term is read in one way; for terms there
// is the frame reader too, the crate `parser`, which keeps the forms that are open in the work area and calls no function again, and
// tells most words that a term begins with while their ends are looked for. The functions of `expects` are methods of its `Input`, but
// for `read_head`.
//
//   production                        reading order   read here by          by frames
//   module: head, declarations        read-module     reader::read_module, which takes either reader
//   head                              head            expects::read_head
//   declaration                       declared        reader::read_named
//   TYPE, BODY                        term 512        read_whole            parser::read_term
//   term                              term            read_term             parser::term_step
//     what it begins with             beginning       begin_term            expects::begin_term
//     WORD                            bare            expects::begin_bare   the same
//     (WORD                           beginning-on    expects::begin_form   the same
//     (ref NAME), (universe NUMERAL)  tagged          expects::begin_tagged the same
//     (WORD NAME T ..), (WORD T ..)   tagged          expects::begin_tagged the same
//   the arguments T ..                several         read_arguments        parser::value_step
//   the closing parenthesis           finish          close_form            parser::value_step
//   the completed term's row          store           store_term            parser::push_term
//
// Both give the same rows, counts, refusals and tables: their promises are one statement. Document 02, Req 11.
#![tactic(auto)]

ghost use Rattle.std.specs.Prelude.{◌≡◌, ◌≤◌, ◌<◌, take};
ghost use Rattle.terms.specs.Forms.{arity_of, holds_span_in};
ghost use Rattle.expects.specs.Formats.{edition};
ghost use Rattle.expects.specs.Expects.{position_at, Begins};
ghost use Rattle.term_rows.specs.TermRows.{TermBounds, pushed_row, Reads, ReadsTerm};
ghost use Rattle.plain.specs.Plain.{a_term, a_form, form_end, stored_term, ReadsRest};

use expects::{Input, TermStart};
use term_rows::ReadTerm;
use terms::Label;
use token::{Class, Refusal, TokenKind};

// "more than 512 frames open in one term" are refused.
const FRAMES: usize = 512;

// TYPE or BODY: a whole term from `at` on, behind the rows that are stored, where there is room for `limit` rows.
pub fn read_whole(
    input: &Input,
    table: &mut [u32],
    at: usize,
    rows: usize,
    limit: usize,
) -> Result<ReadTerm, Refusal>
    ensures { ReadsTerm (edition input.now.format) limit input.now.bytes.now table.old at rows result table.new }
{
    if term_rows::is_within(input.bytes.len(), at, rows) {
        return read_term(input, table, at, rows, FRAMES, limit);
    }
    Err(Refusal::nowhere(Class::WorkShort))
}

// A term, where `left` frames may still be opened: a whole one, or a form with its arguments.
#[cycle(read_arguments_read_term)]
fn read_term(
    input: &Input,
    table: &mut [u32],
    at: usize,
    rows: usize,
    left: usize,
    limit: usize,
) -> Result<ReadTerm, Refusal>
    requires term_bounds { TermBounds input.now.bytes.now at rows }
    requires left_bound { left ≤ 512 }
    ensures { Reads (holds_span_in (edition input.now.format).forms) rows table.old (a_term input.now.format input.now.bytes.now limit left (position_at at rows)) result table.new }
{
    match begin_term(input, at)? {
        TermStart::Leaf(label, next) => {
            let row = term_rows::term_row(label, [0; 6], 0, input.format);
            store_term(table, rows, row, next, 0, limit)
        }
        TermStart::Frame(label, next) => {
            // "7 .. given after the tag and binder"
            if left == 0 {
                return Err(Refusal::nowhere(Class::Frames));
            }
            read_arguments(input, table, next, rows, left - 1, label, limit)
        }
    }
}

// What a term begins with: a word that is a term by itself, or a parenthesis and a form.
fn begin_term(input: &Input, at: usize) -> Result<TermStart, Refusal>
    ensures { Begins (edition input.now.format) input.now.bytes.now at result }
{
    let t = input.lex(at)?;
    match t.kind {
        TokenKind::LParen => input.begin_form(t),
        // WORD: `empty unit star nat zero`
        TokenKind::Atom => input.begin_bare(t),
        _ => Err(Refusal::at(Class::Malformed, t.start)),
    }
}

// The arguments of a form, as many as its kind has, one behind the other; then its end.
#[cycle(read_arguments_read_term)]
fn read_arguments(
    input: &Input,
    table: &mut [u32],
    at: usize,
    rows: usize,
    left: usize,
    label: Label,
    limit: usize,
) -> Result<ReadTerm, Refusal>
    requires term_bounds { TermBounds input.now.bytes.now at rows }
    requires left_bound { left < 512 }
    requires bound { 1 ≤ arity_of label.kind }
    ensures { Reads (holds_span_in (edition input.now.format).forms) rows table.old (a_form input.now.format input.now.bytes.now limit left label (position_at at rows)) result table.new }
{
    let arity = rows::arity(label.kind);
    let mut args = [0u32; 6];
    let mut from = at;
    let mut stored = rows;
    let mut frames = 0usize;
    for len in 0..arity {
        let argument = read_term(input, table, from, stored, left, limit)?;
        args[len as usize] = argument.row;
        from = argument.next;
        stored = argument.rows;
        frames = frames.max(argument.frames);
    }
    close_form(
        input, table, from, stored, label, args, arity, frames, limit,
    )
}

// The end of a form whose arguments are read: its closing parenthesis, and only then its row.
fn close_form(
    input: &Input,
    table: &mut [u32],
    at: usize,
    rows: usize,
    label: Label,
    args: [u32; 6],
    len: u32,
    frames: usize,
    limit: usize,
) -> Result<ReadTerm, Refusal>
    requires term_bounds { TermBounds input.now.bytes.now at rows }
    requires frames_bound { frames < 512 }
    ensures { ReadsRest (holds_span_in (edition input.now.format).forms) limit label (take len args) frames rows table.old (form_end input.now.format input.now.bytes.now (position_at at rows)) result table.new }
{
    let close = input.expect_rparen(at)?;
    let row = term_rows::term_row(label, args, len, input.format);
    store_term(table, rows, row, close.end, frames + 1, limit)
}

// A completed term becomes the next row, where there is room for one more.
fn store_term(
    table: &mut [u32],
    rows: usize,
    row: [u32; 8],
    at: usize,
    frames: usize,
    limit: usize,
) -> Result<ReadTerm, Refusal>
    requires { rows ≤ 4294967295 }
    ensures value { result ≡ stored_term limit rows at frames }
    ensures table_after { table.new ≡ pushed_row limit table.old rows row }
{
    if rows < limit {
        rows::store_row(table, rows, row);
        return Ok(ReadTerm {
            row: rows as u32,
            rows: rows + 1,
            next: at,
            frames,
        });
    }
    Err(Refusal::nowhere(Class::SurfaceFull))
}
