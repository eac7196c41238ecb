// The dependence question of document 01, as document 02, Req 05 and 09 amend it: a source is loaded, the places that show one declaration are
// marked in the work area in one pass upwards, and the rows of the other are searched for the first that names a marked place.
#![tactic(auto)]

ghost use Rattle.std.specs.Prelude.{◌≡◌, ◌&&◌, ltb, ◌-◌, Ok};
ghost use Rattle.dependence.specs.Asks.{Asks};
ghost use Rattle.surface.specs.Tables.{tables};
ghost use Rattle.tables.specs.Tables.{cleared};
ghost use Rattle.depends.specs.inner.Search.{names_marked, first_marked, counted_behind, shows_place, place_looked_at, marks_left, shown_row};

use loader::clear_all;
use rows::{first_row, row_behind};
use tables::{clear_from, word_at};
use token::{Class, Refusal};

// Whether row k is a global row that names a marked place. Behind the table there is none.
#[tactic(auto, unfolding(crate::specs::inner::Search::names_marked))]
fn names_marked(core: &[u32], work: &[u32], k: usize) -> bool
    ensures { result ≡ names_marked core.now work.now k }
{
    if core.len() / 8 < k {
        return false;
    }
    let place = word_at(core, k * 8 + 1) as usize;
    word_at(core, k * 8) == 2 && word_at(work, place) == 1
}

// The first row from row `from` up to row `to` that names a marked place, or a row that is not below `to`.
fn first_marked(core: &[u32], work: &[u32], from: usize, to: usize) -> usize
    ensures { result ≡ first_marked core.now work.now (to - from) from }
{
    for k in from..to {
        if names_marked(core, work, k) {
            return k;
        }
    }
    from.max(to)
}

// The row behind those of declaration k that count further on: the body's do where it is transparent.
#[tactic(auto, unfolding(crate::specs::inner::Search::counted_behind))]
fn counted_behind(declarations: &[u32], k: usize) -> usize
    ensures { result ≡ counted_behind declarations.now k }
{
    if declarations.len() / 5 < k {
        return 1;
    }
    if word_at(declarations, k * 5) == 2 {
        return row_behind(declarations, k);
    }
    word_at(declarations, k * 5 + 3) as usize + 1
}

// Whether place k shows j, where the places below it that do are marked.
#[tactic(auto, unfolding(crate::specs::inner::Search::shows_place))]
fn shows(core: &[u32], declarations: &[u32], work: &[u32], k: usize, j: usize) -> bool
    ensures { result ≡ shows_place core.now declarations.now work.now k j }
{
    if k == j {
        return true;
    }
    let from = first_row(declarations, k);
    let to = counted_behind(declarations, k);
    first_marked(core, work, from, to) < to
}

// Marks place k where it shows j.
#[tactic(auto, unfolding(crate::specs::inner::Search::place_looked_at))]
fn look_at_place(core: &[u32], declarations: &[u32], work: &mut [u32], k: usize, j: usize)
    ensures { work.new ≡ place_looked_at core.now declarations.now j k work.old }
{
    if shows(core, declarations, work, k, j) && k < work.len() {
        work[k] = 1;
    }
}

// The places from j up to place `to`: a place shows only what is not behind it.
fn look_at_places(core: &[u32], declarations: &[u32], work: &mut [u32], j: usize, to: usize)
    ensures { work.new ≡ marks_left core.now declarations.now j to work.old }
{
    for k in j..to {
        look_at_place(core, declarations, work, k, j);
    }
}

// The first row of declaration i that names a marked place.
fn find_shown(core: &[u32], declarations: &[u32], work: &[u32], i: usize) -> Option<usize>
    ensures { Ok result ≡ shown_row core.now declarations.now work.now i }
{
    let from = first_row(declarations, i);
    let to = row_behind(declarations, i);
    let row = first_marked(core, work, from, to);
    (row < to).then_some(row)
}

// The first row of declaration i that names a place which shows j. The marks are cleared again.
fn find_dependence(
    core: &[u32],
    declarations: &[u32],
    work: &mut [u32],
    i: usize,
    j: usize,
) -> Option<usize>
    ensures value { Ok result ≡ shown_row core.now declarations.now (marks_left core.now declarations.now j i work.old) i }
    ensures work_after { work.new ≡ cleared (marks_left core.now declarations.now j i work.old) 0 }
{
    look_at_places(core, declarations, work, j, i);
    let found = find_shown(core, declarations, work, i);
    clear_from(work, 0);
    found
}

// Whether i and j are both places of a list of so many declarations.
fn are_places(i: usize, j: usize, count: usize) -> bool
    ensures { result ≡ ltb i count && ltb j count }
{
    i < count && j < count
}

// Whether declaration i depends on j, and the first row that shows it. A yes or a no leaves the tables as loading does, a refusal leaves 0 in all of them.
pub fn depends(
    s: &[u8],
    i: usize,
    j: usize,
    surface: &mut [u32],
    core: &mut [u32],
    declarations: &mut [u32],
    work: &mut [u32],
) -> Result<Option<usize>, Refusal>
    ensures { Asks s.now i j
        (tables surface.old core.old declarations.old work.old)
        result
        (tables surface.new core.new declarations.new work.new) }
{
    // Loading's own refusal comes before 12.
    let loaded = loader::load(s, surface, core, declarations, work)?;
    if are_places(i, j, loaded.declarations) {
        return Ok(find_dependence(core, declarations, work, i, j));
    }
    clear_all(surface, core, declarations, work);
    Err(Refusal::nowhere(Class::NoDeclaration))
}
