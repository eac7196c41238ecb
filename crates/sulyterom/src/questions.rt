// The dependence question, the question for the binder and the same-core question.
ghost use Rattle.std.specs.Prelude.{◌≡◌};
ghost use Rattle.surface.specs.Tables.{tables, lengths};
ghost use Rattle.dependence.specs.Asks.{ask, report_dependence};
ghost use Rattle.binding.specs.Binds.{AsksBinder, report_binding};
ghost use Rattle.same.specs.Comparison.{report_comparison, SameAsked};
ghost use Rattle.reports.specs.Numbers.{tells, telling, Told};

use reports::{report_binding, report_comparison, report_dependence, tell};

// Whether declaration i depends on j. Answers 0 for yes and no; a yes has one value, the first row that shows it, and a no has none. `answer`
// takes three numbers.
#[unsafe(no_mangle)]
pub extern "C" fn sulyterom_depends(
    source: &[u8],
    i: usize,
    j: usize,
    surface: &mut [u32],
    core: &mut [u32],
    declarations: &mut [u32],
    work: &mut [u32],
    answer: &mut [u64],
) -> u8
    ensures { tells result answer.new (tables surface.new core.new declarations.new work.new)
        ≡ telling report_dependence 3 answer.old (ask source.now (lengths (tables surface.old core.old declarations.old work.old)) i j) }
{
    let asked = depends::depends(source, i, j, surface, core, declarations, work);
    let numbers = report_dependence(asked);
    tell(answer, numbers)
}

// What binds the reference at a row. A local has two values, how many binders stand between and the row of the form that binds it, a global
// one, its declaration's place. `answer` takes three numbers.
#[unsafe(no_mangle)]
pub extern "C" fn sulyterom_binder(
    source: &[u8],
    row: usize,
    surface: &mut [u32],
    core: &mut [u32],
    declarations: &mut [u32],
    work: &mut [u32],
    answer: &mut [u64],
) -> u8
    ensures { Told (λ a. AsksBinder source.now row
        (tables surface.old core.old declarations.old work.old) a
        (tables surface.new core.new declarations.new work.new)) report_binding 3
        answer.old result answer.new }
{
    let bound = binder::binder(source, row, surface, core, declarations, work);
    let numbers = report_binding(bound);
    tell(answer, numbers)
}

// Whether two sources leave the same core. Answers 0 for yes and no; a yes has no value, a no the place of the first declaration at which the
// two part, a refusal 1 or 2 for the source that is refused, and its offset if it has one.
#[unsafe(no_mangle)]
pub extern "C" fn sulyterom_same(
    first: &[u8],
    second: &[u8],
    surface1: &mut [u32],
    core1: &mut [u32],
    declarations1: &mut [u32],
    surface2: &mut [u32],
    core2: &mut [u32],
    declarations2: &mut [u32],
    work: &mut [u32],
    answer: &mut [u64],
) -> u8
    ensures { Told (λ a. SameAsked first.now second.now
        (lengths (tables surface1.old core1.old declarations1.old work.old))
        (lengths (tables surface2.old core2.old declarations2.old work.old)) a
        (tables surface1.new core1.new declarations1.new work.new)
        (tables surface2.new core2.new declarations2.new work.new)) report_comparison
        3 answer.old result answer.new }
{
    let comparison = same::same(
        first,
        second,
        surface1,
        core1,
        declarations1,
        surface2,
        core2,
        declarations2,
        work,
    );
    let numbers = report_comparison(comparison);
    tell(answer, numbers)
}
