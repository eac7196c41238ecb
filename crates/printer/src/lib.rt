// The core text of a source: it is loaded, and its text is written from the core table and the declaration list, from the text's end to its
// beginning. The port of `print_canonical` in format/printer.rs. Document 02, Req 03.
#![tactic(auto)]

ghost use Rattle.std.specs.Prelude.{◌≡◌, List, [], ◌∷◌, ℕ, ◌+◌, ◌-◌, ◌*◌, ◌≤◌, length, take, drop};
ghost use Rattle.tables.specs.Tables.{cleared};
ghost use Rattle.terms.specs.Forms.{arity_of};
ghost use Rattle.terms.specs.Rows.{pad};
ghost use Rattle.token.specs.declared.Class.{Class};
ghost use Rattle.surface.specs.Reader.{nowhere};
ghost use Rattle.surface.specs.Tables.{tables};
ghost use Rattle.printing.specs.Decimal.{decimal};
ghost use Rattle.printing.specs.Printing.{declaration_word};
ghost use Rattle.printing.specs.PrintCall.{Prints};
ghost use Rattle.printer.specs.inner.Ends.{Puts, Stacked, pushed};
ghost use Rattle.printer.specs.inner.Machine.{Stands, Holds, Turns, text_word, opening, leaf, taken, enter, settle, step_row, numeral_of, spelled_row, declaration_start, step_declaration, down, whole, Finishes};

use kind_words::{WORDS, kind_at};
use rows::{arity, atom, first_row, row_behind};
use tables::{clear_from, word_at};
use token::{Class, Refusal};

// How far the text is: so many of its bytes stand at the buffer's end, and so many frames at the work area's end.
#[derive(Clone, Copy)]
struct Marks {
    at: usize,
    top: usize,
}

// One byte in front of the text.
fn put_byte(out: &mut [u8], at: usize, b: u8) -> usize
    ensures { Puts out.old at (b ∷ []) out.new result }
{
    let n = out.len();
    if at < n {
        out[n - 1 - at] = b;
        return at + 1;
    }
    n + 1
}

// Bytes in front of the text.
fn put(out: &mut [u8], at: usize, bytes: &[u8]) -> usize
    ensures { Puts out.old at bytes.now out.new result }
{
    let mut pos = at;
    for byte in bytes.iter().rev() {
        pos = put_byte(out, pos, *byte);
    }
    pos
}

// A number in decimal, its last digit first.
fn put_decimal(out: &mut [u8], at: usize, n: u32) -> usize
    ensures { Puts out.old at (decimal n) out.new result }
{
    let mut pos = at;
    let mut rest = n;
    while 9 < rest {
        pos = put_byte(out, pos, 48 + (rest % 10) as u8);
        rest /= 10;
    }
    put_byte(out, pos, 48 + rest as u8)
}

// The word of a kind, where it has a form in core text.
fn put_word(kind: u32, out: &mut [u8], at: usize) -> usize
    ensures { Puts out.old at (text_word kind) out.new result }
{
    if 23 < kind {
        return at;
    }
    let k = kind_at(kind);
    put(out, at, atom(&WORDS, k.0 as u32, k.1 as u32))
}

// The beginning of a term that has arguments or a numeral.
fn put_opening(kind: u32, out: &mut [u8], at: usize) -> usize
    ensures { Puts out.old at (opening kind) out.new result }
{
    let next = put_word(kind, out, at);
    put(out, next, b" (")
}

// A universe's digits, or a var's count or a global's place.
fn put_numeral(s: &[u8], kind: u32, a: u32, b: u32, out: &mut [u8], at: usize) -> usize
    ensures { Puts out.old at (numeral_of s.now kind a b) out.new result }
{
    if kind == 3 {
        return put(out, at, atom(s, a, b));
    }
    put_decimal(out, at, a)
}

// A term without arguments, by the first three words of its row.
fn put_leaf(s: &[u8], kind: u32, a: u32, b: u32, out: &mut [u8], at: usize) -> usize
    ensures { arity_of kind ≡ 0 → Puts out.old at (leaf (spelled_row s.now kind a b)) out.new result }
{
    match kind {
        1..=3 => {
            let mut pos = put_byte(out, at, 41);
            pos = put_numeral(s, kind, a, b, out, pos);
            pos = put_byte(out, pos, 32);
            put_opening(kind, out, pos)
        }
        _ => {
            let next = put_word(kind, out, at);
            put_byte(out, next, 32)
        }
    }
}

// The top frame.
fn top_frame(work: &[u32], top: usize) -> u32
    ensures { (w : ℕ) (l : List ℕ) → Stacked work.now (w ∷ l) top → result ≡ w }
{
    let n = work.len();
    if n < top {
        return 0;
    }
    word_at(work, n - top)
}

// Another word in the top frame's place. Where it is 0, it is no frame any more.
fn set_top(work: &mut [u32], top: usize, word: u32)
    ensures { (w : ℕ) (l : List ℕ) → Stacked work.old (w ∷ l) top → Stacked work.new (word ∷ l) top }
{
    let n = work.len();
    if 0 < top && top <= n {
        work[n - top] = word;
    }
}

// One frame more, where there is room. Answers how many there are.
fn push(work: &mut [u32], top: usize, word: u32) -> usize
    ensures { (l : List ℕ) → Stacked work.old l top → Stacked work.new (pushed (length work.old) word l) result }
{
    if top < work.len() {
        set_top(work, top + 1, word);
        return top + 1;
    }
    top
}

// The top frame has one argument less to come.
fn take_argument(work: &mut [u32], top: usize)
    ensures { (l : List ℕ) → Stacked work.old l top → Stacked work.new (taken l) top }
{
    if 0 < top {
        let word = top_frame(work, top);
        if 0 < word {
            set_top(work, top, word - 1);
        }
    }
}

// Frames whose arguments are all written are opened.
fn open_frames(work: &mut [u32], out: &mut [u8], marks: Marks) -> Marks
    ensures { Turns work.old out.old marks settle work.new out.new result }
{
    let mut at = marks.at;
    let mut top = marks.top;
    while 0 < top {
        let word = top_frame(work, top);
        if word % 8 != 0 {
            return Marks { at, top };
        }
        at = put_opening(word / 8, out, at);
        set_top(work, top, 0);
        top -= 1;
    }
    Marks { at, top }
}

// The first three words of a core row or of a declaration record.
#[derive(Clone, Copy)]
struct Row {
    kind: u32,
    a: u32,
    b: u32,
}

// Three words from word `at` on, 0 behind the table's end.
fn words_at(t: &[u32], at: usize) -> Row
    ensures { Holds t.now at result }
{
    if t.len() < at {
        return Row {
            kind: 0,
            a: 0,
            b: 0,
        };
    }
    Row {
        kind: word_at(t, at),
        a: word_at(t, at + 1),
        b: word_at(t, at + 2),
    }
}

// Those of core row k.
fn row_at(core: &[u32], k: usize) -> Row
    ensures { Holds core.now (k * 8) result }
{
    if core.len() / 8 < k {
        return words_at(core, core.len());
    }
    words_at(core, k * 8)
}

// Those of declaration i.
fn record_at(declarations: &[u32], i: usize) -> Row
    ensures { Holds declarations.now (i * 5) result }
{
    if declarations.len() / 5 < i {
        return words_at(declarations, declarations.len());
    }
    words_at(declarations, i * 5)
}

// A term is written, or closed where it has arguments, which come next.
fn enter_term(s: &[u8], row: Row, work: &mut [u32], out: &mut [u8], marks: Marks) -> Marks
    ensures { Turns work.old out.old marks (enter (length work.old) (spelled_row s.now row.kind row.a row.b)) work.new out.new result }
{
    let kind = row.kind;
    let n = arity(kind);
    take_argument(work, marks.top);
    if n == 0 {
        let at = put_leaf(s, kind, row.a, row.b, out, marks.at);
        return Marks { at, top: marks.top };
    }
    let at = put_byte(out, marks.at, 41);
    let top = push(work, marks.top, kind * 8 + n);
    Marks { at, top }
}

fn put_row(
    s: &[u8],
    core: &[u32],
    k: usize,
    work: &mut [u32],
    out: &mut [u8],
    marks: Marks,
) -> Marks
    ensures { Turns work.old out.old marks (step_row s.now core.now (length work.old) k) work.new out.new result }
{
    let row = row_at(core, k);
    let entered = enter_term(s, row, work, out, marks);
    open_frames(work, out, entered)
}

// The rows from row `from` up to row `to`, the last one first.
fn put_rows(
    s: &[u8],
    core: &[u32],
    from: usize,
    to: usize,
    work: &mut [u32],
    out: &mut [u8],
    marks: Marks,
) -> Marks
    ensures { Turns work.old out.old marks (down (step_row s.now core.now (length work.old)) from (to - from)) work.new out.new result }
{
    let mut here = marks;
    for k in (from..to).rev() {
        here = put_row(s, core, k, work, out, here);
    }
    here
}

fn put_declaration_word(kind: u32, out: &mut [u8], at: usize) -> usize
    ensures { Puts out.old at (declaration_word kind) out.new result }
{
    match kind {
        1 => put(out, at, b"postulate"),
        2 => put(out, at, b"transparent"),
        _ => put(out, at, b"opaque"),
    }
}

// A declaration's beginning, by the first three words of its record.
fn put_start(s: &[u8], row: Row, out: &mut [u8], at: usize) -> usize
    ensures { Puts out.old at (declaration_start s.now row.kind row.a row.b) out.new result }
{
    let mut pos = put_byte(out, at, 34);
    pos = put(out, pos, atom(s, row.a, row.b));
    pos = put(out, pos, b" \"");
    pos = put_declaration_word(row.kind, out, pos);
    put(out, pos, b" (")
}

fn put_declaration(
    s: &[u8],
    core: &[u32],
    declarations: &[u32],
    i: usize,
    work: &mut [u32],
    out: &mut [u8],
    marks: Marks,
) -> Marks
    ensures { Turns work.old out.old marks (step_declaration s.now core.now declarations.now (length work.old) i) work.new out.new result }
{
    let at = put_byte(out, marks.at, 41);
    let from = first_row(declarations, i);
    let to = row_behind(declarations, i);
    let closed = Marks { at, top: marks.top };
    let inner = put_rows(s, core, from, to, work, out, closed);
    let row = record_at(declarations, i);
    let start = put_start(s, row, out, inner.at);
    Marks {
        at: start,
        top: inner.top,
    }
}

// The first `count` declarations, the last one first.
fn put_declarations(
    s: &[u8],
    core: &[u32],
    declarations: &[u32],
    count: usize,
    work: &mut [u32],
    out: &mut [u8],
    marks: Marks,
) -> Marks
    ensures { Turns work.old out.old marks (down (step_declaration s.now core.now declarations.now (length work.old)) 0 count) work.new out.new result }
{
    let mut here = marks;
    for i in (0..count).rev() {
        here = put_declaration(s, core, declarations, i, work, out, here);
    }
    here
}

// The whole text, at the buffer's end, with a work area that is 0.
fn put_module(
    s: &[u8],
    core: &[u32],
    declarations: &[u32],
    count: usize,
    work: &mut [u32],
    out: &mut [u8],
) -> Marks
    ensures { Stacked work.old [] 0 → Stands work.new out.new (whole s.now core.now declarations.now (length work.old) count) result.at result.top }
{
    let end = put(out, 0, b"))\n");
    let ended = Marks { at: end, top: 0 };
    let inner = put_declarations(s, core, declarations, count, work, out, ended);
    let at = put(
        out,
        inner.at,
        b"(hott-core (format 0 1) (theory \"mltt-core\" 0 1) (declarations",
    );
    Marks { at, top: inner.top }
}

// The last n bytes of the buffer are moved to its beginning.
fn move_front(out: &mut [u8], n: usize)
    requires { n ≤ length out.old }
    ensures { take n out.new ≡ drop (length out.old - n) out.old }
{
    let from = out.len() - n;
    for i in 0..n {
        out[i] = out[from + i];
    }
}

// 0 from byte `from` on.
fn clear_bytes(out: &mut [u8], from: usize)
    ensures { out.new ≡ cleared out.old from }
{
    for i in from..out.len() {
        out[i] = 0;
    }
}

// The text stands at the buffer's end and has n bytes: it is moved to the beginning, and behind it the buffer is 0.
fn finish(text: &mut [u8], n: usize)
    requires { n ≤ length text.old }
    ensures { text.new ≡ pad (length text.old) (drop (length text.old - n) text.old) }
{
    move_front(text, n);
    clear_bytes(text, n);
}

// 14 leaves 0 in all that is lent. The work area is 0 already.
fn clear_lent(surface: &mut [u32], core: &mut [u32], declarations: &mut [u32], text: &mut [u8])
    ensures surface_after { surface.new ≡ cleared surface.old 0 }
    ensures core_after { core.new ≡ cleared core.old 0 }
    ensures declarations_after { declarations.new ≡ cleared declarations.old 0 }
    ensures text_after { text.new ≡ cleared text.old 0 }
{
    clear_from(surface, 0);
    clear_from(core, 0);
    clear_from(declarations, 0);
    clear_bytes(text, 0);
}

// The text of a loaded source, by the tables that loading left.
fn print_loaded(
    s: &[u8],
    surface: &mut [u32],
    core: &mut [u32],
    declarations: &mut [u32],
    count: usize,
    work: &mut [u32],
    text: &mut [u8],
) -> Result<usize, Refusal>
    ensures { Stacked work.old [] 0
        → Finishes (whole s.now core.old declarations.old (length work.old) count)
        (tables surface.old core.old declarations.old work.old)
        text.old
        result
        (tables surface.new core.new declarations.new work.new)
        text.new }
{
    let marks = put_module(s, core, declarations, count, work, text);
    let n = marks.at;
    if text.len() < n {
        clear_lent(surface, core, declarations, text);
        return Err(Refusal::nowhere(Class::TextShort));
    }
    finish(text, n);
    Ok(n)
}

// Loads a source and writes its core text from the buffer's beginning on; behind it the buffer is 0. The tables are left as loading leaves
// them. A refusal, of which printing's own is 14, leaves 0 in all that is lent.
pub fn print(
    s: &[u8],
    surface: &mut [u32],
    core: &mut [u32],
    declarations: &mut [u32],
    work: &mut [u32],
    text: &mut [u8],
) -> Result<usize, Refusal>
    ensures { Prints s.now
        (tables surface.old core.old declarations.old work.old)
        text.old
        result
        (tables surface.new core.new declarations.new work.new)
        text.new }
{
    match loader::load(s, surface, core, declarations, work) {
        // Loading's own refusal leaves its tables 0.
        Err(refusal) => {
            clear_bytes(text, 0);
            Err(refusal)
        }
        Ok(loaded) => {
            let count = loaded.declarations;
            print_loaded(s, surface, core, declarations, count, work, text)
        }
    }
}
