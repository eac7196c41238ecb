// Whether two declarations of a core text have one name. The port of `names.insert(..)` in `parse_module`, format/parser.rs.
// Document 02, Req 03.
#![tactic(auto)]

ghost use Rattle.std.specs.Prelude.{◌≡◌, false, List, [], ◌+◌, ◌*◌, ◌≤◌, length, take};
ghost use Rattle.terms.specs.Label.{Declaration};
ghost use Rattle.terms.specs.Rows.{read_records, joined};
ghost use Rattle.scope.specs.Index.{Indexed};
ghost use Rattle.core_module.specs.CoreText.{repeated};
ghost use Rattle.core_names.specs.inner.Repeats.{is_used, repeats};

use scope::Slot;

// How many words a declaration record has.
const RECORD: usize = 5;

// Whether the name of the declaration at place d is one of those before it. A new name goes into the index.
#[tactic(auto, unfolding(crate::specs::inner::Repeats::is_used))]
fn name_step(s: &[u8], declarations: &[u32], index: &mut [u16], d: usize) -> bool
    requires { (d * 5 + 5 ≤ length declarations.now) × (d ≤ 4294967295) × Indexed s.now declarations.now d index.old }
    ensures value { result ≡ is_used s.now declarations.now d }
    ensures indexed { result ≡ false → Indexed s.now declarations.now (d + 1) index.new }
{
    let start = declarations[d * RECORD + 1];
    let length = declarations[d * RECORD + 2];
    match scope::find_indexed(s, declarations, index, d, start, length) {
        Slot::Held(_) => true,
        Slot::Free(slot) => {
            scope::enter(index, slot, d);
            false
        }
    }
}

// Whether a name is used twice by the first `count` declarations, of which none is in the index.
#[tactic(auto, unfolding(crate::specs::inner::Repeats::repeats))]
fn any_repeated(s: &[u8], declarations: &[u32], index: &mut [u16], count: usize) -> bool
    requires { (count * 5 ≤ length declarations.now) × (count ≤ 4294967295) × Indexed s.now declarations.now 0 index.old }
    ensures { result ≡ repeats s.now declarations.now 0 count }
{
    for d in 0..count {
        if name_step(s, declarations, index, d) {
            return true;
        }
    }
    false
}

// Whether a name is used twice by the first `count` declarations of a core text. Of a count that does not fit the list or a word, false.
#[tactic(auto, using(crate::proofs::Repeats::repeats_repeated))]
pub fn is_repeated(s: &[u8], declarations: &[u32], count: usize) -> bool
    ensures { (ds : List Declaration) → count ≡ length ds → count * 5 ≤ length declarations.now → count ≤ 4294967295 → take (count * 5) declarations.now ≡ joined (read_records 0 ds) → result ≡ repeated s.now [] ds }
{
    if declarations.len() / RECORD < count || 4294967295 < count {
        return false;
    }
    if count <= scope::FEW {
        let mut none = [0u16; 1];
        return any_repeated(s, declarations, &mut none, count);
    }
    let mut index = [0u16; scope::INDEX];
    any_repeated(s, declarations, &mut index, count)
}
