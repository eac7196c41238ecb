// Reading core texts: a text is read, its names are tested, and every lent table is left as document 02 says, after refusals too.
// The port of `parse_transport` and `parse_canonical` in format/parser.rs. Document 02, Req 03.
#![tactic(auto)]

ghost use Rattle.std.specs.Prelude.{◌≡◌, cond, [], ◌*◌, eqb};
ghost use Rattle.surface.specs.Reader.{start};
ghost use Rattle.surface.specs.Tables.{tables, lengths};
ghost use Rattle.surface.specs.SameCore.{row_count, declaration_count};
ghost use Rattle.tables.specs.Tables.{cleared};
ghost use Rattle.core_layout.specs.inner.Layout.{canonical_layout};
ghost use Rattle.core_module.specs.CoreText.{told_class, reading_text, ReadsCore, ReadsCanonical};
ghost use Rattle.core_loader.specs.inner.Stored.{told_refusal, StoresText, CountsText, Judges, own_print};

use surface::Loaded;
use token::{Class, Refusal};

// The class that is told where reading says another: 13 for malformed, 10 for a full table.
fn told_class(class: Class) -> Class
    ensures { result ≡ told_class class }
{
    match class {
        Class::Malformed => Class::CoreText,
        Class::SurfaceFull => Class::CoreShort,
        _ => class,
    }
}

fn told(refusal: Refusal) -> Refusal
    ensures { result ≡ told_refusal refusal }
{
    Refusal {
        class: told_class(refusal.class),
        ..refusal
    }
}

// What was read is accepted if no name is used twice.
fn judge(t: &[u8], declarations: &[u32], read: Result<Loaded, Refusal>) -> Result<Loaded, Refusal>
    ensures { Judges t.now read declarations.now result }
{
    match read {
        Err(refusal) => Err(told(refusal)),
        Ok(loaded) => {
            if core_names::is_repeated(t, declarations, loaded.declarations) {
                return Err(Refusal::at(Class::CoreText, 0));
            }
            read
        }
    }
}

// "11, then 6, come first", then not UTF-8, the mark, reading, and a name used twice. What lies behind the rows and records is untouched.
fn read_tables(
    t: &[u8],
    core: &mut [u32],
    declarations: &mut [u32],
    work: &mut [u32],
) -> Result<Loaded, Refusal>
    ensures stores_text { StoresText (reading_text t.now (lengths (tables [] core.old declarations.old work.old)) start) result core.new declarations.new }
    ensures counts_text { CountsText result core.old declarations.old }
{
    if work.len() < 16384 {
        return Err(Refusal::nowhere(Class::WorkShort));
    }
    if 4294967295 < t.len() {
        return Err(Refusal::nowhere(Class::LongSource));
    }
    let valid = utf8::valid_up_to(t);
    if valid != t.len() {
        return Err(Refusal::at(Class::CoreText, valid));
    }
    if utf8::starts_with_mark(t) {
        return Err(Refusal::at(Class::CoreText, 0));
    }
    let read = core_reader::read_text(t, core, declarations, work);
    judge(t, declarations, read)
}

// 0 behind what the answer counts.
fn clear_behind(
    core: &mut [u32],
    declarations: &mut [u32],
    work: &mut [u32],
    answer: Result<Loaded, Refusal>,
)
    requires { CountsText answer core.old declarations.old }
    ensures core_after { core.new ≡ cleared core.old (row_count answer * 8) }
    ensures declarations_after { declarations.new ≡ cleared declarations.old (declaration_count answer * 5) }
    ensures work_after { work.new ≡ cleared work.old 0 }
{
    let rows = loader::row_count(answer);
    let count = loader::declaration_count(answer);
    tables::clear_from(core, rows * 8);
    tables::clear_from(declarations, count * 5);
    tables::clear_from(work, 0);
}

// The port of `parse_transport`: reads a core text of any layout into the lent tables.
pub fn read_core(
    t: &[u8],
    core: &mut [u32],
    declarations: &mut [u32],
    work: &mut [u32],
) -> Result<Loaded, Refusal>
    ensures { ReadsCore t.now (tables [] core.old declarations.old work.old) result (tables [] core.new declarations.new work.new) }
{
    let answer = read_tables(t, core, declarations, work);
    clear_behind(core, declarations, work, answer);
    answer
}

// An answer for a text, where it must be what would be printed for it.
fn canonical(t: &[u8], answer: Result<Loaded, Refusal>) -> Result<Loaded, Refusal>
    ensures { result ≡ cond (canonical_layout t.now) answer (own_print answer) }
{
    let loaded = answer?;
    if !core_layout::is_canonical_layout(t) {
        return Err(Refusal::nowhere(Class::CoreText));
    }
    Ok(loaded)
}

// The port of `parse_canonical`: the same for texts that are what would be printed for them.
pub fn read_canonical(
    t: &[u8],
    core: &mut [u32],
    declarations: &mut [u32],
    work: &mut [u32],
) -> Result<Loaded, Refusal>
    ensures { ReadsCanonical t.now (tables [] core.old declarations.old work.old) result (tables [] core.new declarations.new work.new) }
{
    let read = read_tables(t, core, declarations, work);
    let answer = canonical(t, read);
    clear_behind(core, declarations, work, answer);
    answer
}
