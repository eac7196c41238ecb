// The library for programs to link: `./sulyterom build` makes it, with include/sulyterom.h for C. Slices pass as a pointer and a length. Each
// function answers 0, or the class of a refusal, and sets in `answer`, if it has room for them, how many values follow, and these.
#![tactic(auto)]

pub mod core_texts;
pub mod questions;
pub mod texts;

ghost use Rattle.std.specs.Prelude.{◌≡◌, []};
ghost use Rattle.surface.specs.Tables.{tables, lengths};
ghost use Rattle.surface.specs.Reports.{report};
ghost use Rattle.surface.specs.Loading.{load};
ghost use Rattle.loader.specs.Parsed.{parse, report_read};
ghost use Rattle.reports.specs.Numbers.{tells, telling};

use reader::{Frames, Method, Plain};
use reports::{report_loaded, report_read, tell};

fn load_by<M: Method>(
    source: &[u8],
    surface: &mut [u32],
    core: &mut [u32],
    declarations: &mut [u32],
    work: &mut [u32],
    answer: &mut [u64],
) -> u8
    ensures { tells result answer.new (tables surface.new core.new declarations.new work.new)
        ≡ telling report 3 answer.old (load source.now (lengths (tables surface.old core.old declarations.old work.old))) }
{
    let loaded = loader::load_by::<M>(source, surface, core, declarations, work);
    let numbers = report_loaded(loaded);
    tell(answer, numbers)
}

// Loads a source. The values are the counts of rows and declarations, or the offset of a refusal that has one. `answer` takes three numbers.
#[unsafe(no_mangle)]
pub extern "C" fn sulyterom_load(
    source: &[u8],
    surface: &mut [u32],
    core: &mut [u32],
    declarations: &mut [u32],
    work: &mut [u32],
    answer: &mut [u64],
) -> u8
    ensures { tells result answer.new (tables surface.new core.new declarations.new work.new)
        ≡ telling report 3 answer.old (load source.now (lengths (tables surface.old core.old declarations.old work.old))) }
{
    load_by::<Frames>(source, surface, core, declarations, work, answer)
}

// The same by the plain reader: it leaves the same answer and the same tables. Document 02, Req 11.
#[unsafe(no_mangle)]
pub extern "C" fn sulyterom_load_plain(
    source: &[u8],
    surface: &mut [u32],
    core: &mut [u32],
    declarations: &mut [u32],
    work: &mut [u32],
    answer: &mut [u64],
) -> u8
    ensures { tells result answer.new (tables surface.new core.new declarations.new work.new)
        ≡ telling report 3 answer.old (load source.now (lengths (tables surface.old core.old declarations.old work.old))) }
{
    load_by::<Plain>(source, surface, core, declarations, work, answer)
}

fn parse_by<M: Method>(
    source: &[u8],
    surface: &mut [u32],
    declarations: &mut [u32],
    work: &mut [u32],
    answer: &mut [u64],
) -> u8
    ensures { tells result answer.new (tables surface.new [] declarations.new work.new)
        ≡ telling report_read 3 answer.old (parse source.now (lengths (tables surface.old [] declarations.old work.old))) }
{
    let read = loader::parse_surface_by::<M>(source, surface, declarations, work);
    let numbers = report_read(read);
    tell(answer, numbers)
}

// Reads a source, with no name looked at. The values are as for loading.
#[unsafe(no_mangle)]
pub extern "C" fn sulyterom_parse(
    source: &[u8],
    surface: &mut [u32],
    declarations: &mut [u32],
    work: &mut [u32],
    answer: &mut [u64],
) -> u8
    ensures { tells result answer.new (tables surface.new [] declarations.new work.new)
        ≡ telling report_read 3 answer.old (parse source.now (lengths (tables surface.old [] declarations.old work.old))) }
{
    parse_by::<Frames>(source, surface, declarations, work, answer)
}

// The same by the plain reader.
#[unsafe(no_mangle)]
pub extern "C" fn sulyterom_parse_plain(
    source: &[u8],
    surface: &mut [u32],
    declarations: &mut [u32],
    work: &mut [u32],
    answer: &mut [u64],
) -> u8
    ensures { tells result answer.new (tables surface.new [] declarations.new work.new)
        ≡ telling report_read 3 answer.old (parse source.now (lengths (tables surface.old [] declarations.old work.old))) }
{
    parse_by::<Plain>(source, surface, declarations, work, answer)
}
