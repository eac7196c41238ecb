// The listing, the tokens of a source, its module's name, and the storage that it needs.
ghost use Rattle.std.specs.Prelude.{◌≡◌, length};
ghost use Rattle.surface.specs.Tables.{tables};
ghost use Rattle.token.specs.Token.{next_token};
ghost use Rattle.least_storage.specs.Storage.{storage_left, report_storage};
ghost use Rattle.lister.specs.Lists.{Lists};
ghost use Rattle.module_name.specs.ModuleName.{module_name, report_module_name};
ghost use Rattle.surface.specs.Reports.{report_token};
ghost use Rattle.reports.specs.Numbers.{report_listed, tells, telling, Told};

use reader::{Frames, Method, Plain};
use reports::{report_listed, report_module_name, report_storage, report_token, tell, tell_all};

fn list_by<M: Method>(
    source: &[u8],
    surface: &mut [u32],
    core: &mut [u32],
    declarations: &mut [u32],
    work: &mut [u32],
    text: &mut [u8],
    answer: &mut [u64],
) -> u8
    ensures { Told (λ l. Lists source.now
        (tables surface.old core.old declarations.old work.old)
        text.old l (tables surface.new core.new declarations.new work.new)
        text.new) report_listed 4 answer.old result answer.new }
{
    let listed = lister::list_by::<M>(source, surface, core, declarations, work, text);
    let numbers = report_listed(listed);
    tell_all(answer, numbers)
}

// Loads a source and writes its listing, or the line of its refusal, into `text`. The values are those of loading and then the text's length;
// a text that does not fit is cut, and its length is told as one more than there is room for. `answer` takes four numbers.
#[unsafe(no_mangle)]
pub extern "C" fn sulyterom_list(
    source: &[u8],
    surface: &mut [u32],
    core: &mut [u32],
    declarations: &mut [u32],
    work: &mut [u32],
    text: &mut [u8],
    answer: &mut [u64],
) -> u8
    ensures { Told (λ l. Lists source.now
        (tables surface.old core.old declarations.old work.old)
        text.old l (tables surface.new core.new declarations.new work.new)
        text.new) report_listed 4 answer.old result answer.new }
{
    list_by::<Frames>(source, surface, core, declarations, work, text, answer)
}

// The same by the plain reader.
#[unsafe(no_mangle)]
pub extern "C" fn sulyterom_list_plain(
    source: &[u8],
    surface: &mut [u32],
    core: &mut [u32],
    declarations: &mut [u32],
    work: &mut [u32],
    text: &mut [u8],
    answer: &mut [u64],
) -> u8
    ensures { Told (λ l. Lists source.now
        (tables surface.old core.old declarations.old work.old)
        text.old l (tables surface.new core.new declarations.new work.new)
        text.new) report_listed 4 answer.old result answer.new }
{
    list_by::<Plain>(source, surface, core, declarations, work, text, answer)
}

// The token at or behind an offset: its kind (1 `(`, 2 `)`, 3 an atom, 4 the end), where it starts and where it ends; or the refusal of a byte.
#[unsafe(no_mangle)]
pub extern "C" fn sulyterom_token(source: &[u8], at: usize, answer: &mut [u64]) -> u8
    ensures { Told (λ l. l ≡ next_token source.now at) report_token 4 answer.old result answer.new }
{
    let read = lexer::lex(source, at);
    let lexed = read.lexed;
    let numbers = report_token(lexed);
    tell_all(answer, numbers)
}

// The module's name, from the head of a source: where it starts, and its length; or the refusal of the whole source, where there is no good
// head. No table is lent, and nothing behind a good head is looked at. `answer` takes three numbers.
#[unsafe(no_mangle)]
pub extern "C" fn sulyterom_head(source: &[u8], answer: &mut [u64]) -> u8
    ensures { Told (λ a. a ≡ module_name source.now) report_module_name 3 answer.old result answer.new }
{
    let found = head::head(source);
    let numbers = report_module_name(found);
    tell(answer, numbers)
}

// The rows, declarations and open frames that a source needs, or the refusal 11, 6, 1, 2, 3 or 7 that loading gives. Only the work area is
// lent; it is 0 afterwards. `answer` takes four numbers.
#[unsafe(no_mangle)]
pub extern "C" fn sulyterom_storage(source: &[u8], work: &mut [u32], answer: &mut [u64]) -> u8
    ensures { tells result answer.new work.new
        ≡ telling report_storage 4 answer.old (storage_left source.now (length work.old)) }
{
    let needed = storage::storage(source, work);
    let numbers = report_storage(needed);
    tell_all(answer, numbers)
}
