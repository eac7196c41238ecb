// What a name refers to: a local, the innermost first, or else an earlier declaration. Names are parts of the source, compared by bytes.
// The port of the lookups in `elaborate_term`, surface/elaborate.rs. Document 01, "The core module".
#![tactic(auto)]

ghost use Rattle.std.specs.Prelude.{◌≡◌, ℕ, ◌+◌, ◌*◌, ◌<◌, ◌≤◌, length, List};
ghost use Rattle.words.specs.Words.{same_bytes};
ghost use Rattle.terms.specs.Label.{part};
ghost use Rattle.terms.specs.Resolution.{find};
ghost use Rattle.terms.specs.Lookup.{lookup, refers};
ghost use Rattle.scope.specs.Scope.{place_of, found_of, referent_of, Binders, in_scope, declared_names};
ghost use Rattle.scope.specs.Index.{places, all_slots, mixed, bit_of, name_at, Indexed, Searched};

use rows::atom;

// How many words a declaration record has.
const RECORD: usize = 5;

// The rows and the kinds of the locals' forms stand behind the spans of 512 names, so that the walk over names goes by pairs of words.
const ROWS: usize = 1024;

const KINDS: usize = 1536;

// Edition 0 2's arrow, a binder that no name reaches.
const ARROW: u32 = 25;

// The index of names: how many heads it has, and for how many places it has two links each. A source of 65,535 bytes has fewer declarations.
const HEADS: usize = 4096;

const PLACES: usize = 4096;

pub const INDEX: usize = HEADS + 2 * PLACES;

// So many declarations are walked over sooner than an index is cleared.
pub const FEW: usize = 16;

// How a name's bytes are mixed into a number of 32 bits, and how many of these numbers share a head.
const MULTIPLIER: usize = 374761393;

const NUMBERS: usize = 4294967296;

const SHARE: usize = NUMBERS / HEADS;

// How many bits of such a number choose no head.
const LOW_BITS: usize = 20;

// A name in scope: how many binders stand inside of it, and the row of the form that binds it.
#[derive(Clone, Copy, Debug, PartialEq, Eq)]
pub struct FoundLocal {
    pub count: u32,
    pub row: u32,
}

// The place of a declaration with a name, or the slot of the index where its name would go. Neither is a failure, so this is no `Result`.
#[derive(Clone, Copy, Debug, PartialEq, Eq)]
pub enum Slot {
    Held(u32),
    Free(usize),
}

// What a name refers to: a local, or a declaration's place.
#[derive(Clone, Copy, Debug, PartialEq, Eq)]
pub enum Referent {
    Local(FoundLocal),
    Global(u32),
}

// Whether a part of the source is the name x. What of the part runs past the end is cut off, as `atom` does, which takes longer: it makes two tests
// where most parts need one.
fn is_name(s: &[u8], start: u32, length: u32, x: &[u8]) -> bool
    ensures { result ≡ same_bytes x.now (part s.now start length) }
{
    let a = start as usize;
    let mut n = length as usize;
    if s.len() < a + n {
        if s.len() <= a {
            return x.is_empty();
        }
        n = s.len() - a;
    }
    words::same_bytes(x, &s[a..a + n])
}

// How many binders lie between a name and the innermost one of that name, and its row. A part is no longer than it says: most are passed by
// their length. An arrow's length is 0 and its kind is looked at last.
fn find_local(s: &[u8], work: &[u32], depth: usize, start: u32, length: u32) -> Option<FoundLocal>
    requires { Binders work.now depth }
    ensures { found_of result ≡ lookup (part s.now start length) (in_scope s.now work.now depth) }
{
    let x = atom(s, start, length);
    for count in 0..depth {
        let d = depth - count - 1;
        let n = work[d * 2 + 1];
        if x.len() <= n as usize && is_name(s, work[d * 2], n, x) && work[KINDS + d] != ARROW {
            return Some(FoundLocal {
                count: count as u32,
                row: work[ROWS + d],
            });
        }
    }
    None
}

// The place of the first of d declarations that has the name x, by a walk over all.
fn find_declared(s: &[u8], declarations: &[u32], d: usize, x: &[u8]) -> Option<u32>
    requires { (d * 5 ≤ length declarations.now) × (d ≤ 4294967295) }
    ensures { place_of result ≡ find x.now (declared_names s.now declarations.now 0 d) }
{
    for k in 0..d {
        let a = declarations[k * RECORD + 1];
        let n = declarations[k * RECORD + 2];
        if is_name(s, a, n, x) {
            return Some(k as u32);
        }
    }
    None
}

// A name's bytes mixed into a number: names with other numbers are other names.
#[tactic(auto, using(crate::proofs::Index::mixed_more, crate::proofs::Index::mixed_end))]
fn mix(x: &[u8]) -> usize
    ensures { (result ≡ mixed 0 x.now) × (result < 4294967296) }
{
    let mut mixed = 0;
    for b in x {
        mixed = (mixed + *b as usize) * MULTIPLIER % NUMBERS;
    }
    mixed
}

// Bit i of the walk for a name whose number is m: those of the number that chose no head, then those of the name, from its end.
#[tactic(auto, unfolding(crate::specs::Index::bit_of, crate::specs::Index::name_bit))]
fn bit(x: &[u8], m: usize, i: usize) -> usize
    requires { m ≡ mixed 0 x.now }
    ensures { (result ≡ bit_of x.now i) × (result < 2) }
{
    if i < LOW_BITS {
        return (m >> i) % 2;
    }
    let j = i - LOW_BITS;
    let k = j / 8;
    if x.len() <= k {
        return 0;
    }
    let b = x[x.len() - 1 - k] as usize;
    (b >> j % 8) % 2
}

// The search for the name x in an index that holds the first d declarations. The walk ends at an empty slot or at the name, not at a count, so it
// is a loop that counts the bits itself.
fn find_slot(s: &[u8], declarations: &[u32], index: &[u16], d: usize, x: &[u8]) -> Slot
    requires { (d ≤ places) × (length index.now ≡ all_slots) × Indexed s.now declarations.now d index.now }
    ensures { Searched s.now declarations.now x.now d index.now result }
{
    let m = mix(x);
    let mut slot = m / SHARE;
    let mut i: usize = 0;
    loop {
        let e = index[slot] as usize;
        if e == 0 {
            return Slot::Free(slot);
        }
        let k = e - 1;
        let a = declarations[k * RECORD + 1];
        let n = declarations[k * RECORD + 2];
        if is_name(s, a, n, x) {
            return Slot::Held(k as u32);
        }
        slot = HEADS + 2 * k + bit(x, m, i);
        i += 1;
    }
}

// The search for a name among the first d declarations. An index that is too short, or for fewer declarations, is left aside: all are walked over.
pub fn find_indexed(
    s: &[u8],
    declarations: &[u32],
    index: &[u16],
    d: usize,
    start: u32,
    length: u32,
) -> Slot
    requires { (d ≤ 4294967295) × Indexed s.now declarations.now d index.now }
    ensures { Searched s.now declarations.now (part s.now start length) d index.now result }
{
    let x = atom(s, start, length);
    if index.len() == INDEX && d <= PLACES {
        return find_slot(s, declarations, index, d, x);
    }
    match find_declared(s, declarations, d, x) {
        Some(place) => Slot::Held(place),
        None => Slot::Free(INDEX),
    }
}

// The declaration at place k, whose name is new, goes into the index at the slot that the search for its name ended at.
pub fn enter(index: &mut [u16], slot: usize, k: usize)
    ensures { (s declarations : List ℕ) → k * 5 + 5 ≤ length declarations → Indexed s declarations k index.old → Searched s declarations (name_at s declarations k) k index.old (Slot.Free slot) → Indexed s declarations (k + 1) index.new }
{
    if slot < index.len() && k < PLACES {
        index[slot] = (k + 1) as u16;
    }
}

// "A local hides a declaration."
pub fn find_name(
    s: &[u8],
    work: &[u32],
    declarations: &[u32],
    index: &[u16],
    depth: usize,
    d: usize,
    start: u32,
    length: u32,
) -> Option<Referent>
    requires { Binders work.now depth × (d ≤ 4294967295) × Indexed s.now declarations.now d index.now }
    ensures { referent_of result ≡ refers (lookup (part s.now start length) (in_scope s.now work.now depth))
        (find (part s.now start length) (declared_names s.now declarations.now 0 d)) }
{
    if let Some(local) = find_local(s, work, depth, start, length) {
        return Some(Referent::Local(local));
    }
    match find_indexed(s, declarations, index, d, start, length) {
        Slot::Held(place) => Some(Referent::Global(place)),
        Slot::Free(_) => None,
    }
}
