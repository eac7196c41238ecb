// The reader of modules: the head, then declarations to the end, into lent tables of rows and records.
// The port of `parse_module` and `parse_declaration_after_lparen` in surface/parser.rs. The declarations of every format have one reader.
#![tactic(auto)]

ghost use Rattle.std.specs.Prelude.{◌≡◌, [], ◌∷◌, ◌-◌, ◌/◌, ◌≤◌, ◌<◌, length};
ghost use Rattle.surface.specs.Reader.{start};
ghost use Rattle.surface.specs.Reading.{closing, read_module};
ghost use Rattle.expects.specs.Formats.{edition};
ghost use Rattle.expects.specs.Expects.{position_at};
ghost use Rattle.term_rows.specs.TermRows.{ReadsTerm};
ghost use Rattle.reader.specs.Parts.{ReadsBody, Finishes, ReadsNamed, ReadsDeclaration, Steps, HasRoom, ReadsDeclarations};
ghost use Rattle.reader.specs.Reads.{Measures, ReadsModule};

use expects::{Input, ModuleHead};
use surface::Loaded;
use term_rows::ReadTerm;
use token::{Class, Classes, Refusal, Token, TokenKind};

// A reader of terms, which stands in the station that reading a module has for one.
pub trait Method {
    // A whole type or body, behind the rows that are stored, where there is room for `limit` rows.
    fn read_term(
        input: &Input,
        table: &mut [u32],
        work: &mut [u32],
        at: usize,
        rows: usize,
        limit: usize,
    ) -> Result<ReadTerm, Refusal>
        ensures { 5632 ≤ length work.old → ReadsTerm (edition input.now.format) limit input.now.bytes.now table.old at rows result table.new };
}

// The quick reader, by frames in the work area.
#[derive(Clone, Copy, Debug, PartialEq, Eq)]
pub struct Frames;

impl Method for Frames {
    fn read_term(
        input: &Input,
        table: &mut [u32],
        work: &mut [u32],
        at: usize,
        rows: usize,
        limit: usize,
    ) -> Result<ReadTerm, Refusal> {
        parser::read_term(input, table, work, at, rows, limit)
    }
}

// The plain reader, by calls. It asks for no work area.
#[derive(Clone, Copy, Debug, PartialEq, Eq)]
pub struct Plain;

impl Method for Plain {
    fn read_term(
        input: &Input,
        table: &mut [u32],
        _work: &mut [u32],
        at: usize,
        rows: usize,
        limit: usize,
    ) -> Result<ReadTerm, Refusal> {
        plain::read_whole(input, table, at, rows, limit)
    }
}

// How many rows and declarations there is room for.
#[derive(Clone, Copy, Debug, PartialEq, Eq)]
pub struct Limits {
    pub rows: usize,
    pub declarations: usize,
}

// A declaration that was read: how many rows are stored, where reading goes on, and how many frames were open at most.
#[derive(Clone, Copy, Debug, PartialEq, Eq)]
pub struct ReadDeclaration {
    pub rows: usize,
    pub next: usize,
    pub frames: usize,
}

// What stands next in a module: a declaration; or the end, and where reading goes on behind it.
#[derive(Clone, Copy, Debug, PartialEq, Eq)]
enum ModuleStep {
    Declared(ReadDeclaration),
    End(usize),
}

// Declarations that were read: how many rows and declarations are stored, where reading goes on, and how many frames were open at most
// in one term.
#[derive(Clone, Copy, Debug, PartialEq, Eq)]
pub struct AllDeclarations {
    pub rows: usize,
    pub declarations: usize,
    pub next: usize,
    pub frames: usize,
}

// A module that was read: how many rows and declarations it has, and how many frames were open at most in one term.
#[derive(Clone, Copy, Debug, PartialEq, Eq)]
pub struct ModuleSize {
    pub rows: usize,
    pub declarations: usize,
    pub frames: usize,
}

// "kind, name start, name length, type row, body row"
fn declaration_record(kind: u32, name: Token, type_row: u32, body_row: u32) -> [u32; 5]
    requires { name.start ≤ name.end }
    ensures { name.end < 4294967296 → result ≡ kind ∷ name.start ∷ (name.end - name.start) ∷ type_row ∷ body_row ∷ [] }
{
    let start = expects::narrow(name.start);
    let length = expects::narrow(name.end - name.start);
    [kind, start, length, type_row, body_row]
}

// The body of a declaration: a postulate, of kind 1, has none.
fn read_body<M: Method>(
    input: &Input,
    table: &mut [u32],
    work: &mut [u32],
    kind: u32,
    at: usize,
    rows: usize,
    limits: Limits,
) -> Result<ReadTerm, Refusal>
    ensures { ReadsBody input.now.format limits input.now.bytes.now table.old work.old kind at rows result table.new }
{
    if kind == 1 {
        return Ok(ReadTerm {
            row: 0,
            rows,
            next: at,
            frames: 0,
        });
    }
    M::read_term(input, table, work, at, rows, limits.rows)
}

// The closing parenthesis of a declaration, and only then its record.
fn finish_declaration(
    input: &Input,
    list: &mut [u32],
    at: usize,
    rows: usize,
    k: usize,
    record: [u32; 5],
    frames: usize,
) -> Result<ReadDeclaration, Refusal>
    ensures { Finishes (closing ((edition input.now.format).tokens input.now.bytes.now) (position_at at rows)) k frames list.old «record» result list.new }
{
    let close = input.expect_rparen(at)?;
    rows::store_record(list, k, record);
    Ok(ReadDeclaration {
        rows,
        next: close.end,
        frames,
    })
}

// A declaration of some kind behind its word: its name, its type, its body if the kind has one, and its end.
fn read_named<M: Method>(
    input: &Input,
    table: &mut [u32],
    list: &mut [u32],
    work: &mut [u32],
    kind: u32,
    at: usize,
    rows: usize,
    k: usize,
    limits: Limits,
) -> Result<ReadDeclaration, Refusal>
    ensures { ReadsNamed input.now.format limits input.now.bytes.now table.old list.old work.old kind at rows k result table.new list.new }
{
    let (name, behind) = input.parse_name(at)?;
    let ty = M::read_term(input, table, work, behind, rows, limits.rows)?;
    // Taken apart here: `?` would have all of it copied first, in other pieces than it was stored in, which is waited for.
    match read_body::<M>(input, table, work, kind, ty.next, ty.rows, limits) {
        Err(refusal) => Err(refusal),
        Ok(
            ReadTerm {
                row,
                rows,
                next,
                frames,
            },
        ) => {
            let record = declaration_record(kind, name, ty.row, row);
            let most = ty.frames.max(frames);
            finish_declaration(input, list, next, rows, k, record, most)
        }
    }
}

// The declaration behind an opening parenthesis: its rows are stored behind the others, and its record at place k.
fn read_declaration<M: Method>(
    input: &Input,
    table: &mut [u32],
    list: &mut [u32],
    work: &mut [u32],
    at: usize,
    rows: usize,
    k: usize,
    limits: Limits,
) -> Result<ReadDeclaration, Refusal>
    ensures { ReadsDeclaration input.now.format limits input.now.bytes.now table.old list.old work.old at rows k result table.new list.new }
{
    let tag = input.next_atom(at)?;
    let kind = expects::declaration_kind(&input.bytes[tag.start..tag.end]);
    if kind == 0 {
        return Err(Refusal::at(Class::Malformed, tag.start));
    }
    read_named::<M>(input, table, list, work, kind, tag.end, rows, k, limits)
}

// What stands next: the end, or a declaration. A full list is refused before the declaration's word is read.
fn next_declaration<M: Method>(
    input: &Input,
    table: &mut [u32],
    list: &mut [u32],
    work: &mut [u32],
    at: usize,
    rows: usize,
    k: usize,
    limits: Limits,
) -> Result<ModuleStep, Refusal>
    ensures steps { Steps input.now.format limits input.now.bytes.now table.old list.old work.old at rows k result table.new list.new work.new }
    ensures has_room { HasRoom limits k result }
{
    let t = input.next_token(at)?;
    if t.kind == TokenKind::LParen {
        if limits.declarations <= k {
            // "9 declaration list full", nowhere
            return Err(Refusal::nowhere(Class::DeclarationsFull));
        }
        let declaration = read_declaration::<M>(input, table, list, work, t.end, rows, k, limits)?;
        return Ok(ModuleStep::Declared(declaration));
    }
    if input.format.is_ending(t.kind) {
        return Ok(ModuleStep::End(t.end));
    }
    Err(Refusal::at(Class::Malformed, t.start))
}

// Declarations of a format from an offset to their end, into empty tables.
pub fn read_declarations<M: Method>(
    input: &Input,
    table: &mut [u32],
    list: &mut [u32],
    work: &mut [u32],
    from: usize,
    limits: Limits,
) -> Result<AllDeclarations, Refusal>
    ensures { ReadsDeclarations input.now.format limits input.now.bytes.now table.old list.old work.old from result table.new list.new }
{
    let mut at = from;
    let mut rows = 0;
    let mut k = 0;
    let mut frames = 0;
    loop {
        match next_declaration::<M>(input, table, list, work, at, rows, k, limits)? {
            ModuleStep::End(next) => {
                return Ok(AllDeclarations {
                    rows,
                    declarations: k,
                    next,
                    frames,
                });
            }
            ModuleStep::Declared(declaration) => {
                at = declaration.next;
                rows = declaration.rows;
                k += 1;
                frames = frames.max(declaration.frames);
            }
        }
    }
}

// The port of `parse_module`, where reading begins and the table of byte classes is made. Rows and declarations are counted against the
// limits; what a table has no place for is left out of it. With tables that have no place for anything it only counts.
pub fn measure_within<M: Method>(
    s: &[u8],
    table: &mut [u32],
    list: &mut [u32],
    work: &mut [u32],
    limits: Limits,
) -> Result<ModuleSize, Refusal>
    ensures { length s.now ≤ 4294967295 → 5632 ≤ length work.old → Measures limits (read_module s.now limits.rows limits.declarations 512 start) table.old list.old result table.new list.new }
{
    let classes = Classes::new();
    let ModuleHead { format, next, .. } = expects::read_head(s, &classes)?;
    let input = Input {
        bytes: s,
        classes: &classes,
        format,
    };
    let all = read_declarations::<M>(&input, table, list, work, next, limits)?;
    Ok(ModuleSize {
        rows: all.rows,
        declarations: all.declarations,
        frames: all.frames,
    })
}

// The same where the tables say how much there is room for, and the frames are not told: "words divided by 8, rounded down", "words divided by 5, rounded down".
pub fn read_module<M: Method>(
    s: &[u8],
    table: &mut [u32],
    list: &mut [u32],
    work: &mut [u32],
) -> Result<Loaded, Refusal>
    ensures { length s.now ≤ 65535 → 16384 ≤ length work.old → ReadsModule (read_module s.now (length table.old / 8) (length list.old / 5) 512 start) table.old list.old result table.new list.new }
{
    let limits = Limits {
        rows: table.len() / 8,
        declarations: list.len() / 5,
    };
    let size = measure_within::<M>(s, table, list, work, limits)?;
    Ok(Loaded {
        rows: size.rows,
        declarations: size.declarations,
    })
}
