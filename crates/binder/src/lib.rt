// The question of document 02, Req 04: a source is loaded, and what binds the reference at a row is looked up among the local binders there.
#![tactic(auto)]

ghost use Rattle.std.specs.Prelude.{◌≡◌, ◌&&◌, List, [], ℕ, ◌*◌, ◌+◌, ◌<◌, ◌≤◌, ltb, eqb, get_or, length};
ghost use Rattle.surface.specs.Tables.{tables};
ghost use Rattle.binding.specs.Binds.{AsksBinder};
ghost use Rattle.scope.specs.Scope.{in_scope, referent_of};
ghost use Rattle.stacks.specs.Stacks.{names_room, WorkArea};
ghost use Rattle.binder.specs.inner.Walk.{declaration_with, root_with, behind_span, argument_with, walk, refers_at, Placed, WentDown, binding_of};

use binding::Binder;
use loader::clear_all;
use scope::Referent;
use tables::{clear_from, word_at};
use token::{Class, Refusal};

// How many words a row and a declaration record have.
const ROW: usize = 8;

const RECORD: usize = 5;

const REF: u32 = 24;

// "7 more than 512 frames open in one term": no row has more forms around it.
const FORMS: usize = 512;

// A row on the way down to another, and how many local binders there are.
#[derive(Clone, Copy, Debug, PartialEq, Eq)]
struct Way {
    row: u32,
    locals: usize,
}

// The place of the declaration that has row k among its rows.
#[tactic(auto, unfolding(crate::specs::inner::Walk::first_from))]
fn declaration_with(declarations: &[u32], count: usize, k: usize) -> usize
    ensures { result ≡ declaration_with declarations.now count k }
{
    for j in 0..count {
        if k < rows::row_behind(declarations, j) {
            return j;
        }
    }
    count
}

// The row of its type or of its body, whichever has row k among its rows. Behind the list there is none.
fn root_with(declarations: &[u32], j: usize, k: usize) -> u32
    ensures { result ≡ root_with declarations.now j k }
{
    if declarations.len() / RECORD < j {
        return 0;
    }
    let type_row = word_at(declarations, j * RECORD + 3);
    if k <= type_row as usize {
        return type_row;
    }
    word_at(declarations, j * RECORD + 4)
}

// Where in a row its arguments' rows stand: behind the kind, and behind the span if there is one.
fn behind_span(kind: u32) -> usize
    ensures { result ≡ behind_span kind }
{
    if rows::holds_span(kind) { 3 } else { 1 }
}

// The argument of the row `id` that has row k among its rows: the first whose own row is not before k.
#[tactic(auto, unfolding(crate::specs::inner::Walk::first_from))]
fn argument_with(surface: &[u32], id: u32, k: usize) -> usize
    ensures { (result ≡ argument_with surface.now k id) × (result ≤ 7) }
{
    let at = id as usize * ROW;
    let kind = word_at(surface, at);
    let n = rows::arity(kind) as usize;
    let first = at + behind_span(kind);
    for i in 0..n {
        if k <= word_at(surface, first + i) as usize {
            return i;
        }
    }
    n
}

// One step down. Where the row's binder covers the argument that is stepped into, it comes into scope.
fn down(surface: &[u32], work: &mut [u32], way: Way, k: usize) -> Way
    requires { (way.locals < names_room) × WorkArea work.old }
    ensures { WentDown surface.now k way work.old result work.new }
{
    let id = way.row;
    let l = way.locals;
    let at = id as usize * ROW;
    let kind = word_at(surface, at);
    let i = argument_with(surface, id, k);
    let row = word_at(surface, at + behind_span(kind) + i);
    if rows::covers(kind, i) {
        let start = word_at(surface, at + 1);
        let length = word_at(surface, at + 2);
        stacks::push_local(work, l, kind, start, length, id);
        return Way { row, locals: l + 1 };
    }
    Way { row, locals: l }
}

// The way from the row `root` down to row k: how many local binders there are, which the work area holds.
fn walk(surface: &[u32], work: &mut [u32], root: u32, k: usize) -> usize
    requires { WorkArea work.old }
    ensures { (result ≤ names_room) × ((s : List ℕ) → in_scope s work.new result ≡ walk surface.now k s 512 root []) }
{
    let mut way = Way {
        row: root,
        locals: 0,
    };
    for _ in 0..FORMS {
        if way.row as usize == k {
            return way.locals;
        }
        way = down(surface, work, way, k);
    }
    way.locals
}

// What the reference at row k refers to, among so many declarations. One name is looked up, so no index is made for it.
fn refers_at(
    s: &[u8],
    surface: &[u32],
    declarations: &[u32],
    work: &mut [u32],
    count: usize,
    k: usize,
) -> Option<Referent>
    requires k_in_bounds { (k * 8 + 8 ≤ length surface.now) × WorkArea work.old }
    requires placed { Placed declarations.now (declaration_with declarations.now count k) }
    ensures { referent_of result ≡ refers_at s.now surface.now declarations.now count k }
{
    let j = declaration_with(declarations, count, k);
    let root = root_with(declarations, j, k);
    let depth = walk(surface, work, root, k);
    let start = word_at(surface, k * ROW + 1);
    let length = word_at(surface, k * ROW + 2);
    let no_index = [0u16; 1];
    scope::find_name(s, work, declarations, &no_index, depth, j, start, length)
}

// Whether row k is one of so many rows, and a reference.
fn is_reference(surface: &[u32], rows: usize, k: usize) -> bool
    ensures { result ≡ ltb k rows && eqb (get_or surface.now (k * 8) 0) 24 }
{
    k < rows && k <= surface.len() / ROW && word_at(surface, k * ROW) == REF
}

fn binding_of(referent: Option<Referent>) -> Result<Binder, Refusal>
    ensures { result ≡ binding_of (referent_of referent) }
{
    match referent {
        Some(Referent::Local(local)) => Ok(Binder::Local {
            count: local.count as usize,
            row: local.row as usize,
        }),
        Some(Referent::Global(place)) => Ok(Binder::Global {
            place: place as usize,
        }),
        None => Err(Refusal::nowhere(Class::NoDeclaration)),
    }
}

// What binds the reference at a row. An answer leaves the tables as loading does, a refusal leaves 0 in all of them.
pub fn binder(
    s: &[u8],
    row: usize,
    surface: &mut [u32],
    core: &mut [u32],
    declarations: &mut [u32],
    work: &mut [u32],
) -> Result<Binder, Refusal>
    ensures { AsksBinder s.now row
        (tables surface.old core.old declarations.old work.old)
        result
        (tables surface.new core.new declarations.new work.new) }
{
    // Loading's own refusal comes before 12.
    let loaded = loader::load(s, surface, core, declarations, work)?;
    if is_reference(surface, loaded.rows, row) {
        let referent = refers_at(s, surface, declarations, work, loaded.declarations, row);
        clear_from(work, 0);
        return binding_of(referent);
    }
    clear_all(surface, core, declarations, work);
    Err(Refusal::nowhere(Class::NoDeclaration))
}
