// The listing's text, written into a lent buffer. Document 01, "The listing".
// Every function is total: a word behind a table's end is 0, and a part of the source ends with the source.
#![tactic(auto)]

ghost use Rattle.std.specs.Prelude.{◌≡◌, ◌+◌, ◌*◌, length, get_or, drop};
ghost use Rattle.std.proofs.lemmas.List.Edits.{sets};
ghost use Rattle.terms.specs.Label.{part};
ghost use Rattle.text.specs.Text.{length_in, with_text, decimal};
ghost use Rattle.lines.specs.Listing.{spaced, kind_word, numbers, row_fields, row_line, row_lines, declaration_word, declaration_rows, declaration_line, declaration_lines, first_line, listing, place_text, refused_line, refusal_line};

use kind_words::{WORDS, kind_at};
use rows::atom;
use tables::word_at;
use text::{put, put_byte, put_decimal};
use token::Refusal;

// The table from row k on, of rows that have so many words.
fn rows_from(t: &[u32], width: usize, k: usize) -> &[u32]
    ensures { result.now ≡ drop (k * width) t.now }
{
    let at = k.saturating_mul(width);
    t.get(at..).unwrap_or(&[])
}

fn put_part(s: &[u8], start: u32, len: u32, out: &mut [u8], at: usize) -> usize
    ensures out_after { out.new ≡ sets out.old at (part s.now start len) }
    ensures value { result ≡ length_in out.old (at + length (part s.now start len)) }
{
    put(out, at, atom(s, start, len))
}

fn put_kind_word(kind: u32, out: &mut [u8], at: usize) -> usize
    ensures out_after { out.new ≡ sets out.old at (kind_word kind) }
    ensures value { result ≡ length_in out.old (at + length (kind_word kind)) }
{
    let k = kind_at(kind);
    put_part(&WORDS, k.0 as u32, k.1 as u32, out, at)
}

fn put_declaration_word(kind: u32, out: &mut [u8], at: usize) -> usize
    ensures out_after { out.new ≡ sets out.old at (declaration_word kind) }
    ensures value { result ≡ length_in out.old (at + length (declaration_word kind)) }
{
    match kind {
        1 => put(out, at, b"postulate"),
        2 => put(out, at, b"transparent"),
        3 => put(out, at, b"opaque"),
        _ => put(out, at, b""),
    }
}

fn put_number(n: u64, out: &mut [u8], at: usize) -> usize
    ensures out_after { out.new ≡ sets out.old at (spaced (decimal n)) }
    ensures value { result ≡ length_in out.old (at + length (spaced (decimal n))) }
{
    let next = put_byte(out, at, 32);
    put_decimal(out, next, n)
}

// n words from word i on.
fn put_numbers(t: &[u32], i: u32, n: u32, out: &mut [u8], at: usize) -> usize
    ensures out_after { out.new ≡ sets out.old at (numbers n t.now i) }
    ensures value { result ≡ length_in out.old (at + length (numbers n t.now i)) }
{
    // An offset far behind the buffer's end is cut, also where nothing follows.
    let mut pos = at.min(out.len() + 1);
    for j in 0..n as usize {
        let word = word_at(t, i as usize + j);
        pos = put_number(u64::from(word), out, pos);
    }
    pos
}

// The part of the source whose start and length are words 1 and 2 of a row: a universe's digits, or a declaration's name.
fn put_span(s: &[u8], row: &[u32], out: &mut [u8], at: usize) -> usize
    ensures out_after { out.new ≡ sets out.old at (spaced (part s.now (get_or row.now 1 0) (get_or row.now 2 0))) }
    ensures value { result ≡ length_in out.old (at + length (spaced (part s.now (get_or row.now 1 0) (get_or row.now 2 0)))) }
{
    let start = word_at(row, 1);
    let len = word_at(row, 2);
    let next = put_byte(out, at, 32);
    put_part(s, start, len, out, next)
}

// What stands behind the word of a core row's kind.
fn put_fields(s: &[u8], row: &[u32], out: &mut [u8], at: usize) -> usize
    ensures out_after { out.new ≡ sets out.old at (row_fields s.now row.now 0) }
    ensures value { result ≡ length_in out.old (at + length (row_fields s.now row.now 0)) }
{
    let kind = word_at(row, 0);
    if kind == 3 {
        return put_span(s, row, out, at);
    }
    let k = kind_at(kind);
    put_numbers(row, 1, k.2 as u32, out, at)
}

fn put_row(s: &[u8], core: &[u32], k: usize, out: &mut [u8], at: usize) -> usize
    ensures out_after { out.new ≡ sets out.old at (row_line s.now core.now k) }
    ensures value { result ≡ length_in out.old (at + length (row_line s.now core.now k)) }
{
    let row = rows_from(core, 8, k);
    let mut pos = put_decimal(out, at, k as u64);
    pos = put_byte(out, pos, 32);
    pos = put_kind_word(word_at(row, 0), out, pos);
    pos = put_fields(s, row, out, pos);
    put_byte(out, pos, 10)
}

fn put_rows(s: &[u8], core: &[u32], rows: usize, out: &mut [u8], at: usize) -> usize
    ensures out_after { out.new ≡ sets out.old at (row_lines s.now core.now rows 0) }
    ensures value { result ≡ length_in out.old (at + length (row_lines s.now core.now rows 0)) }
{
    // An offset far behind the buffer's end is cut, also where nothing follows.
    let mut pos = at.min(out.len() + 1);
    for k in 0..rows {
        pos = put_row(s, core, k, out, pos);
    }
    pos
}

// The type row, and the body row if there is one.
fn put_declaration_rows(declaration: &[u32], out: &mut [u8], at: usize) -> usize
    ensures out_after { out.new ≡ sets out.old at (declaration_rows declaration.now 0) }
    ensures value { result ≡ length_in out.old (at + length (declaration_rows declaration.now 0)) }
{
    if word_at(declaration, 0) == 1 {
        return put_numbers(declaration, 3, 1, out, at);
    }
    put_numbers(declaration, 3, 2, out, at)
}

fn put_declaration(s: &[u8], declarations: &[u32], k: usize, out: &mut [u8], at: usize) -> usize
    ensures out_after { out.new ≡ sets out.old at (declaration_line s.now declarations.now k) }
    ensures value { result ≡ length_in out.old (at + length (declaration_line s.now declarations.now k)) }
{
    let declaration = rows_from(declarations, 5, k);
    let mut pos = put_decimal(out, at, k as u64);
    pos = put_byte(out, pos, 32);
    pos = put_declaration_word(word_at(declaration, 0), out, pos);
    pos = put_span(s, declaration, out, pos);
    let end = put_declaration_rows(declaration, out, pos);
    put_byte(out, end, 10)
}

fn put_declarations(
    s: &[u8],
    declarations: &[u32],
    count: usize,
    out: &mut [u8],
    at: usize,
) -> usize
    ensures out_after { out.new ≡ sets out.old at (declaration_lines s.now declarations.now count 0) }
    ensures value { result ≡ length_in out.old (at + length (declaration_lines s.now declarations.now count 0)) }
{
    // An offset far behind the buffer's end is cut, also where nothing follows.
    let mut pos = at.min(out.len() + 1);
    for k in 0..count {
        pos = put_declaration(s, declarations, k, out, pos);
    }
    pos
}

fn put_first_line(rows: usize, count: usize, out: &mut [u8], at: usize) -> usize
    ensures out_after { out.new ≡ sets out.old at (first_line rows count) }
    ensures value { result ≡ length_in out.old (at + length (first_line rows count)) }
{
    let mut pos = put(out, at, b"nodes ");
    pos = put_decimal(out, pos, rows as u64);
    pos = put(out, pos, b" declarations ");
    pos = put_decimal(out, pos, count as u64);
    put_byte(out, pos, 10)
}

// The whole listing of a core table with so many rows and a declaration list with so many declarations.
pub fn put_listing(
    s: &[u8],
    core: &[u32],
    declarations: &[u32],
    rows: usize,
    count: usize,
    out: &mut [u8],
) -> usize
    ensures out_after { out.new ≡ with_text out.old (listing s.now core.now declarations.now rows count) }
    ensures value { result ≡ length_in out.old (length (listing s.now core.now declarations.now rows count)) }
{
    let mut pos = put_first_line(rows, count, out, 0);
    pos = put_rows(s, core, rows, out, pos);
    put_declarations(s, declarations, count, out, pos)
}

fn put_place(place: Option<usize>, out: &mut [u8], at: usize) -> usize
    ensures out_after { out.new ≡ sets out.old at (place_text place) }
    ensures value { result ≡ length_in out.old (at + length (place_text place)) }
{
    match place {
        Some(p) => {
            let next = put(out, at, b" at ");
            put_decimal(out, next, p as u64)
        }
        None => put(out, at, b""),
    }
}

// The line of a refusal by its class's number.
fn put_refused_at(class: u8, place: Option<usize>, out: &mut [u8], at: usize) -> usize
    ensures out_after { out.new ≡ sets out.old at (refused_line class place) }
    ensures value { result ≡ length_in out.old (at + length (refused_line class place)) }
{
    let mut pos = put(out, at, b"refused ");
    pos = put_decimal(out, pos, class as u64);
    pos = put_place(place, out, pos);
    put_byte(out, pos, 10)
}

// The same from the buffer's beginning on. The number may be any.
pub fn put_refused(class: u8, place: Option<usize>, out: &mut [u8]) -> usize
    ensures out_after { out.new ≡ with_text out.old (refused_line class place) }
    ensures value { result ≡ length_in out.old (length (refused_line class place)) }
{
    put_refused_at(class, place, out, 0)
}

// The line of a refusal.
pub fn put_refusal(refusal: Refusal, out: &mut [u8]) -> usize
    ensures out_after { out.new ≡ with_text out.old (refusal_line refusal) }
    ensures value { result ≡ length_in out.old (length (refusal_line refusal)) }
{
    put_refused(refusal.class.number(), refusal.place, out)
}
