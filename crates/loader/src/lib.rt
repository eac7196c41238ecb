// Loading: a source is read, its names are resolved, and every lent table is left as document 01 says, after refusals too.
// The port of `parse_surface` followed by `elaborate_surface`.
#![tactic(auto)]

ghost use Rattle.std.specs.Prelude.{◌≡◌, ◌*◌, ◌≤◌, length, List, []};
ghost use Rattle.surface.specs.Reader.{start};
ghost use Rattle.surface.specs.Loading.{tables, parsing, Loads};
ghost use Rattle.surface.specs.SameCore.{row_count, declaration_count};
ghost use Rattle.reader.specs.Reads.{ReadsModule};
ghost use Rattle.tables.specs.Tables.{cleared};
ghost use Rattle.terms.specs.Label.{Declaration};
ghost use Rattle.surface.specs.Loading.{loading};
ghost use Rattle.elaborate.specs.Loadable.{Loadable};
ghost use Rattle.loader.specs.Parsed.{Parses};
ghost use Rattle.loader.specs.Leaving.{lengths_of};
ghost use Rattle.loader.specs.inner.Stored.{Stores, Resolves, Counts};
ghost use Rattle.loader.specs.inner.Tests.{Tests};

use reader::{Frames, Method};
use surface::Loaded;
use token::{Class, Refusal};

// What is tested of a source before it is read. "Order: 11; 6; not UTF-8; leading EF BB BF", by the source and how many words the work area has.
pub fn test_source(s: &[u8], area: usize) -> Result<(), Refusal>
    ensures { Tests s.now area result }
{
    if area < 16384 {
        return Err(Refusal::nowhere(Class::WorkShort));
    }
    if 65535 < s.len() {
        return Err(Refusal::nowhere(Class::LongSource));
    }
    let valid = utf8::valid_up_to(s);
    if valid != s.len() {
        return Err(Refusal::at(Class::Malformed, valid));
    }
    if utf8::starts_with_mark(s) {
        return Err(Refusal::at(Class::Malformed, 0));
    }
    Ok(())
}

// ".. then 1, 2, 3, 7, 8, 9 by reading order". What lies behind the rows and records is untouched.
fn parse<M: Method>(
    s: &[u8],
    surface: &mut [u32],
    declarations: &mut [u32],
    work: &mut [u32],
) -> Result<Loaded, Refusal>
    ensures { ReadsModule (parsing s.now (lengths_of surface.old [] declarations.old work.old) start)
        surface.old declarations.old result surface.new declarations.new }
{
    test_source(s, work.len())?;
    reader::read_module::<M>(s, surface, declarations, work)
}

// ".. 10; then declarations in order: 4, its type, its body": what was read is resolved into the core table.
fn resolve(
    s: &[u8],
    surface: &[u32],
    core: &mut [u32],
    declarations: &[u32],
    work: &mut [u32],
    rows: usize,
    count: usize,
) -> Result<Loaded, Refusal>
    ensures { (ds : List Declaration)
        → (rows * 8 ≤ length core.old
        → Loadable surface.now declarations.now core.old work.old rows count ds)
        → Resolves s.now ds rows core.old result core.new }
{
    if core.len() / 8 < rows {
        return Err(Refusal::nowhere(Class::CoreShort));
    }
    match elaborate::elaborate_surface(s, surface, declarations, core, work, rows, count) {
        Ok(()) => Ok(Loaded {
            rows,
            declarations: count,
        }),
        Err(name) => Err(Refusal::nowhere(name.class)),
    }
}

// All of loading but that the tables are cleared.
fn load_tables<M: Method>(
    s: &[u8],
    surface: &mut [u32],
    core: &mut [u32],
    declarations: &mut [u32],
    work: &mut [u32],
) -> Result<Loaded, Refusal>
    ensures stores { Stores s.now (loading s.now (lengths_of surface.old core.old declarations.old work.old) start) result
        surface.new core.new declarations.new }
    ensures counts { Counts result surface.old core.old declarations.old }
{
    let read = parse::<M>(s, surface, declarations, work)?;
    resolve(
        s,
        surface,
        core,
        declarations,
        work,
        read.rows,
        read.declarations,
    )
}

pub fn row_count(answer: Result<Loaded, Refusal>) -> usize
    ensures { result ≡ row_count answer }
{
    answer.map_or(0, |loaded| loaded.rows)
}

pub fn declaration_count(answer: Result<Loaded, Refusal>) -> usize
    ensures { result ≡ declaration_count answer }
{
    answer.map_or(0, |loaded| loaded.declarations)
}

// Loads a source into the lent tables by either reader. Each table is written once, and cleared behind what was stored; after a refusal nothing is stored.
pub fn load_by<M: Method>(
    s: &[u8],
    surface: &mut [u32],
    core: &mut [u32],
    declarations: &mut [u32],
    work: &mut [u32],
) -> Result<Loaded, Refusal>
    ensures { Loads s.now
        (tables surface.old core.old declarations.old work.old)
        result
        (tables surface.new core.new declarations.new work.new) }
{
    let answer = load_tables::<M>(s, surface, core, declarations, work);
    let rows = row_count(answer);
    let count = declaration_count(answer);
    tables::clear_from(surface, rows * 8);
    tables::clear_from(core, rows * 8);
    tables::clear_from(declarations, count * 5);
    tables::clear_from(work, 0);
    answer
}

// The same by the frame reader.
pub fn load(
    s: &[u8],
    surface: &mut [u32],
    core: &mut [u32],
    declarations: &mut [u32],
    work: &mut [u32],
) -> Result<Loaded, Refusal>
    ensures { Loads s.now
        (tables surface.old core.old declarations.old work.old)
        result
        (tables surface.new core.new declarations.new work.new) }
{
    load_by::<Frames>(s, surface, core, declarations, work)
}

fn clear(t: &mut [u32])
    ensures { t.new ≡ cleared t.old 0 }
{
    tables::clear_from(t, 0)
}

// What a refusal of a question leaves: 12, "nowhere, after loading", is given of what the source has not.
pub fn clear_all(surface: &mut [u32], core: &mut [u32], declarations: &mut [u32], work: &mut [u32])
    ensures surface_after { surface.new ≡ cleared surface.old 0 }
    ensures core_after { core.new ≡ cleared core.old 0 }
    ensures declarations_after { declarations.new ≡ cleared declarations.old 0 }
    ensures work_after { work.new ≡ cleared work.old 0 }
{
    clear(surface);
    clear(core);
    clear(declarations);
    clear(work);
}

// Reads a source into the lent tables, with no name looked at, by either reader.
pub fn parse_surface_by<M: Method>(
    s: &[u8],
    surface: &mut [u32],
    declarations: &mut [u32],
    work: &mut [u32],
) -> Result<Loaded, Refusal>
    ensures { Parses s.now
        (tables surface.old [] declarations.old work.old)
        result
        (tables surface.new [] declarations.new work.new) }
{
    let read = parse::<M>(s, surface, declarations, work);
    tables::clear_from(surface, row_count(read) * 8);
    tables::clear_from(declarations, declaration_count(read) * 5);
    clear(work);
    read
}

// The same by the frame reader.
pub fn parse_surface(
    s: &[u8],
    surface: &mut [u32],
    declarations: &mut [u32],
    work: &mut [u32],
) -> Result<Loaded, Refusal>
    ensures { Parses s.now
        (tables surface.old [] declarations.old work.old)
        result
        (tables surface.new [] declarations.new work.new) }
{
    parse_surface_by::<Frames>(s, surface, declarations, work)
}
