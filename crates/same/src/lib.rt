// The same-core question: whether two sources leave the same core, and otherwise where they part. Ours, beyond document 01.
#![tactic(auto)]

ghost use Rattle.std.specs.Prelude.{◌≡◌, ◌+◌, ◌*◌, ◌≤◌, ◌<◌, length};
ghost use Rattle.tables.specs.Tables.{cleared};
ghost use Rattle.surface.specs.Tables.{tables, lengths};
ghost use Rattle.same.specs.inner.Contents.{Decides, words_at, atom_at, SameRow, SameRows, SameRecord, SameDeclaration, FirstDifferent, Compared};
ghost use Rattle.same.specs.Comparison.{SameAsked};

use loader::load;
use rows::{atom, first_row, row_behind};
use tables::{clear_from, word_at};
use token::Refusal;

// Which of the two sources is refused, and its refusal.
#[derive(Clone, Copy)]
pub enum Unloaded {
    First(Refusal),
    Second(Refusal),
}

// n words of two tables from one word on.
fn same_words(a: &[u32], b: &[u32], from: usize, n: usize) -> bool
    requires { from + n ≤ 18446744073709551615 }
    ensures { Decides result (words_at n a.now from ≡ words_at n b.now from) }
{
    for i in 0..n {
        if word_at(a, from + i) != word_at(b, from + i) {
            return false;
        }
    }
    true
}

// Two parts of the sources whose start and length stand at one word of two tables: a universe's digits, or a declaration's name.
fn same_atom(s: &[u8], a: &[u32], t: &[u8], b: &[u32], from: usize) -> bool
    requires { from + 1 ≤ 18446744073709551615 }
    ensures { Decides result (atom_at s.now a.now from ≡ atom_at t.now b.now from) }
{
    let x = atom(s, word_at(a, from), word_at(a, from + 1));
    let y = atom(t, word_at(b, from), word_at(b, from + 1));
    words::same_bytes(x, y)
}

// Row i of two core tables, by what counts of it: a universe's digits do, their place in the source and the term's do not.
fn same_row(s: &[u8], core1: &[u32], t: &[u8], core2: &[u32], i: usize) -> bool
    requires { i ≤ 4294967296 }
    ensures { Decides result (SameRow s.now core1.now t.now core2.now i) }
{
    let at = i * 8;
    let kind = word_at(core1, at);
    if kind != word_at(core2, at) {
        return false;
    }
    if kind != 3 {
        return same_words(core1, core2, at + 1, 6);
    }
    if !same_atom(s, core1, t, core2, at + 1) {
        return false;
    }
    same_words(core1, core2, at + 3, 4)
}

// The rows from row `from` on and before row `to`.
fn same_rows(s: &[u8], core1: &[u32], t: &[u8], core2: &[u32], from: usize, to: usize) -> bool
    requires { to ≤ 4294967296 }
    ensures { Decides result (SameRows s.now core1.now t.now core2.now from to) }
{
    for i in from..to {
        if !same_row(s, core1, t, core2, i) {
            return false;
        }
    }
    true
}

// Record k of two declaration lists, by what counts of it: names are compared by bytes.
fn same_record(s: &[u8], declarations1: &[u32], t: &[u8], declarations2: &[u32], k: usize) -> bool
    requires { k * 5 + 5 ≤ length declarations1.now }
    ensures { Decides result (SameRecord s.now declarations1.now t.now declarations2.now k) }
{
    let at = k * 5;
    if word_at(declarations1, at) != word_at(declarations2, at) {
        return false;
    }
    if !same_atom(s, declarations1, t, declarations2, at + 1) {
        return false;
    }
    same_words(declarations1, declarations2, at + 3, 2)
}

// Declaration k: its record, and its rows, which have the same numbers on both sides where the declarations before it are the same.
fn same_declaration(
    s: &[u8],
    core1: &[u32],
    declarations1: &[u32],
    t: &[u8],
    core2: &[u32],
    declarations2: &[u32],
    k: usize,
) -> bool
    requires { k * 5 + 5 ≤ length declarations1.now }
    ensures { Decides result (SameDeclaration s.now core1.now declarations1.now t.now core2.now declarations2.now k) }
{
    if !same_record(s, declarations1, t, declarations2, k) {
        return false;
    }
    let from = first_row(declarations1, k);
    let to = row_behind(declarations1, k);
    same_rows(s, core1, t, core2, from, to)
}

// The place of the first declaration that is not the same in lists of m and n, or the shorter list's length.
fn first_difference(
    s: &[u8],
    core1: &[u32],
    declarations1: &[u32],
    m: usize,
    t: &[u8],
    core2: &[u32],
    declarations2: &[u32],
    n: usize,
) -> usize
    requires { m * 5 ≤ length declarations1.now }
    ensures { FirstDifferent s.now core1.now declarations1.now t.now core2.now declarations2.now m n result }
{
    let shorter = m.min(n);
    for k in 0..shorter {
        if !same_declaration(s, core1, declarations1, t, core2, declarations2, k) {
            return k;
        }
    }
    shorter
}

// The place where lists of m and n declarations part. They are the same if all of the shorter one is, and the other has no more.
fn compare(
    s: &[u8],
    core1: &[u32],
    declarations1: &[u32],
    m: usize,
    t: &[u8],
    core2: &[u32],
    declarations2: &[u32],
    n: usize,
) -> Option<usize>
    requires { m * 5 ≤ length declarations1.now }
    ensures { Compared s.now core1.now declarations1.now t.now core2.now declarations2.now m n result }
{
    let k = first_difference(s, core1, declarations1, m, t, core2, declarations2, n);
    (k < m.max(n)).then_some(k)
}

fn clear(surface: &mut [u32], core: &mut [u32], declarations: &mut [u32])
    ensures surface_after { surface.new ≡ cleared surface.old 0 }
    ensures core_after { core.new ≡ cleared core.old 0 }
    ensures declarations_after { declarations.new ≡ cleared declarations.old 0 }
{
    clear_from(surface, 0);
    clear_from(core, 0);
    clear_from(declarations, 0);
}

// Loads both sources and compares what they leave: the place where they part, or none if they are the same. A refusal of the first comes
// first; after a refusal both sets of tables are cleared.
pub fn same(
    first: &[u8],
    second: &[u8],
    surface1: &mut [u32],
    core1: &mut [u32],
    declarations1: &mut [u32],
    surface2: &mut [u32],
    core2: &mut [u32],
    declarations2: &mut [u32],
    work: &mut [u32],
) -> Result<Option<usize>, Unloaded>
    ensures { SameAsked first.now second.now
        (lengths (tables surface1.old core1.old declarations1.old work.old))
        (lengths (tables surface2.old core2.old declarations2.old work.old))
        result
        (tables surface1.new core1.new declarations1.new work.new)
        (tables surface2.new core2.new declarations2.new work.new) }
{
    let one = match load(first, surface1, core1, declarations1, work) {
        Ok(loaded) => loaded,
        Err(refusal) => {
            clear(surface2, core2, declarations2);
            return Err(Unloaded::First(refusal));
        }
    };
    let other = match load(second, surface2, core2, declarations2, work) {
        Ok(loaded) => loaded,
        Err(refusal) => {
            clear(surface1, core1, declarations1);
            return Err(Unloaded::Second(refusal));
        }
    };
    Ok(compare(
        first,
        core1,
        declarations1,
        one.declarations,
        second,
        core2,
        declarations2,
        other.declarations,
    ))
}
