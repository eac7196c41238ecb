// Core text: a source's printed, and one read.
ghost use Rattle.std.specs.Prelude.{◌≡◌, []};
ghost use Rattle.surface.specs.Tables.{tables, lengths};
ghost use Rattle.surface.specs.Reports.{report};
ghost use Rattle.printing.specs.PrintCall.{report_printed, Prints};
ghost use Rattle.core_module.specs.CoreText.{read_core, read_canonical};
ghost use Rattle.reports.specs.Numbers.{tells, telling, Told};

use reports::{report_loaded, report_printed, tell};

// Loads a source and writes its core text into `text`. The value is the text's length, or the offset of a refusal that has one. `answer`
// takes three numbers.
#[unsafe(no_mangle)]
pub extern "C" fn sulyterom_print(
    source: &[u8],
    surface: &mut [u32],
    core: &mut [u32],
    declarations: &mut [u32],
    work: &mut [u32],
    text: &mut [u8],
    answer: &mut [u64],
) -> u8
    ensures { Told (λ a. Prints source.now
        (tables surface.old core.old declarations.old work.old)
        text.old a (tables surface.new core.new declarations.new work.new)
        text.new) report_printed 3 answer.old result answer.new }
{
    let printed = printer::print(source, surface, core, declarations, work, text);
    let numbers = report_printed(printed);
    tell(answer, numbers)
}

// Reads a core text of any layout. The values are the counts of rows and declarations, or the offset of a refusal that has one.
#[unsafe(no_mangle)]
pub extern "C" fn sulyterom_read_core(
    text: &[u8],
    core: &mut [u32],
    declarations: &mut [u32],
    work: &mut [u32],
    answer: &mut [u64],
) -> u8
    ensures { tells result answer.new (tables [] core.new declarations.new work.new)
        ≡ telling report 3 answer.old (read_core text.now (lengths (tables [] core.old declarations.old work.old))) }
{
    let read = core_loader::read_core(text, core, declarations, work);
    let numbers = report_loaded(read);
    tell(answer, numbers)
}

// The same for texts that are what would be printed for them.
#[unsafe(no_mangle)]
pub extern "C" fn sulyterom_read_canonical(
    text: &[u8],
    core: &mut [u32],
    declarations: &mut [u32],
    work: &mut [u32],
    answer: &mut [u64],
) -> u8
    ensures { tells result answer.new (tables [] core.new declarations.new work.new)
        ≡ telling report 3 answer.old (read_canonical text.now (lengths (tables [] core.old declarations.old work.old))) }
{
    let read = core_loader::read_canonical(text, core, declarations, work);
    let numbers = report_loaded(read);
    tell(answer, numbers)
}
