// Rows of eight words and declaration records of five: what each word is, storing them at a place of a lent table, the part of the
// source that a row or record names, and the rows of a declaration.
// The port of `TermFrameKind::arity` and `TermFrame::into_term` in surface/parser.rs. Document 01, "The module read", "The core module".
#![tactic(auto)]

ghost use Rattle.std.specs.Prelude.{◌≡◌, cond, [], ◌∷◌, ◌++◌, ◌+◌, ◌*◌, ◌<◌, get_or, take};
ghost use Rattle.terms.specs.Forms.{counts_as, arity_of, holds_span, holds_span_in};
ghost use Rattle.terms.specs.Label.{part};
ghost use Rattle.terms.specs.Resolution.{kept, covers};
ghost use Rattle.terms.specs.Rows.{pad, row, core_words};
ghost use Rattle.terms.specs.TextForms.{text_forms};
ghost use Rattle.rows.specs.Places.{has_place, stored_at};
ghost use Rattle.rows.specs.DeclarationRows.{row_behind, first_row};

use tables::word_at;
use terms::Label;

// The kinds of edition 0 2's arrow, and of the pi that it counts as.
const ARROW: u32 = 25;

const PI: u32 = 4;

// How many arguments a term of each kind has: octal digits, the last one for kind 3. An array would be copied where it is read.
const ARITIES: u64 = 0o241_003_002_061_311_222_120;

// Whether a term of each kind has the start and length of a name or numeral in its row: bits, the last one for kind 0.
const SPANS: u32 = 0b1_0000_0000_0000_0000_1011_1000;

// The kind of a term's core row, if it is kept: an arrow becomes a pi. It has a pi's arguments too, and covers the same one.
pub fn core_kind(kind: u32) -> u32
    ensures { result ≡ counts_as kind }
{
    if kind == ARROW { PI } else { kind }
}

pub fn arity(kind: u32) -> u32
    ensures { result ≡ arity_of kind }
{
    match core_kind(kind) {
        k @ 3..=24 => ((ARITIES >> (3 * (u64::from(k) - 3))) % 8) as u32,
        _ => 0,
    }
}

pub fn holds_span(kind: u32) -> bool
    ensures { result ≡ holds_span kind }
{
    kind <= 24 && (SPANS >> kind) % 2 == 1
}

// Whether a form's binder covers its argument i.
pub fn covers(kind: u32, i: usize) -> bool
    ensures { result ≡ covers kind i }
{
    matches!((core_kind(kind), i), (4 | 7, 1) | (5, 0))
}

// The first len arguments, and 0 for the others: one choice for all of them.
fn first_args(args: [u32; 6], len: u32) -> [u32; 6]
    ensures { result ≡ pad 6 (take len args) }
{
    match len {
        0 => [0, 0, 0, 0, 0, 0],
        1 => [args[0], 0, 0, 0, 0, 0],
        2 => [args[0], args[1], 0, 0, 0, 0],
        3 => [args[0], args[1], args[2], 0, 0, 0],
        4 => [args[0], args[1], args[2], args[3], 0, 0],
        5 => [args[0], args[1], args[2], args[3], args[4], 0],
        _ => args,
    }
}

// The label's kind, its span if the row has one, the first len arguments, and the label's offset.
pub fn row_words(label: Label, span: bool, args: [u32; 6], len: u32) -> [u32; 8]
    ensures { result ≡ row label.kind (cond span (label.start ∷ label.length ∷ []) [] ++ take len args) label.offset }
{
    let Label {
        kind,
        start,
        length,
        offset,
    } = label;
    let [a, b, c, d, e, f] = first_args(args, len);
    if span {
        [kind, start, length, a, b, c, d, offset]
    } else {
        [kind, a, b, c, d, e, f, offset]
    }
}

// Whether a term of core text of each kind has the start and length of a numeral in its row: var, global and universe.
pub fn holds_numeral(kind: u32) -> bool
    ensures { result ≡ holds_span_in text_forms kind }
{
    matches!(kind, 1..=3)
}

// The row of a term that is kept: only a universe has a span in the core module.
pub fn core_row(label: Label, args: [u32; 6], len: u32) -> [u32; 8]
    ensures { result ≡ core_words label kept (take len args) }
{
    let kind = core_kind(label.kind);
    row_words(Label { kind, ..label }, label.kind == 3, args, len)
}

// The row of a var with its count, or of a global with its place, for a reference at an offset.
pub fn reference_row(kind: u32, number: u32, offset: u32) -> [u32; 8]
    ensures { result ≡ row kind (number ∷ []) offset }
{
    [kind, number, 0, 0, 0, 0, 0, offset]
}

// The offset of the term at row k, 0 where the table has no such row.
pub fn row_offset(table: &[u32], k: u32) -> u32
    ensures { result ≡ get_or table.now (k * 8 + 7) 0 }
{
    word_at(table, k as usize * 8 + 7)
}

// Stores words at place k of a table of places so wide and answers true, or false where the table has no such place.
#[tactic(auto, using(crate::proofs::Storing::stored_nowhere, crate::proofs::Storing::stored_there))]
fn store_at<const WIDTH: usize>(table: &mut [u32], k: usize, words: &[u32; WIDTH]) -> bool
    requires { 0 < WIDTH }
    ensures value { result ≡ has_place WIDTH table.old k }
    ensures table_after { table.new ≡ stored_at WIDTH table.old k words.now }
{
    let there = k < table.len() / WIDTH;
    if there {
        tables::put(table, k * WIDTH, words);
    }
    there
}

// Stores a row.
pub fn store_row(table: &mut [u32], k: usize, row: [u32; 8]) -> bool
    ensures value { result ≡ has_place 8 table.old k }
    ensures table_after { table.new ≡ stored_at 8 table.old k row }
{
    store_at(table, k, &row)
}

// Stores a declaration record.
pub fn store_record(table: &mut [u32], k: usize, record: [u32; 5]) -> bool
    ensures value { result ≡ has_place 5 table.old k }
    ensures table_after { table.new ≡ stored_at 5 table.old k «record» }
{
    store_at(table, k, &record)
}

// A name or numeral as a part of the source; what runs past the end is cut off.
pub fn atom(s: &[u8], start: u32, length: u32) -> &[u8]
    ensures { result.now ≡ part s.now start length }
{
    let rest = s.get(start as usize..).unwrap_or(&[]);
    rest.get(..length as usize).unwrap_or(rest)
}

// The row behind those of declaration i. Its body's row is its last, or its type's where there is no body, whose row is then 0.
#[tactic(auto, unfolding(crate::specs::DeclarationRows::row_behind))]
pub fn row_behind(declarations: &[u32], i: usize) -> usize
    ensures { result ≡ row_behind declarations.now i }
{
    if declarations.len() / 5 < i {
        return 1;
    }
    let type_row = word_at(declarations, i * 5 + 3);
    let body_row = word_at(declarations, i * 5 + 4);
    type_row.max(body_row) as usize + 1
}

#[tactic(auto, unfolding(crate::specs::DeclarationRows::first_row))]
pub fn first_row(declarations: &[u32], i: usize) -> usize
    ensures { result ≡ first_row declarations.now i }
{
    if i == 0 {
        0
    } else {
        row_behind(declarations, i - 1)
    }
}
