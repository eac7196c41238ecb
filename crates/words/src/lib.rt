// Atoms as words, each a part of the source: reserved words, identifiers, numerals, and equal names.
// The port of `is_reserved`, `is_identifier` and the test of `parse_natural` in surface/parser.rs. Document 01, "The token".
#![tactic(auto)]

ghost use Rattle.std.specs.Prelude.{◌≡◌, cond, ◌≤◌, ◌<◌, length};
ghost use Rattle.token.specs.Token.{digit};
ghost use Rattle.words.specs.Words.{same_bytes, word_index, reserved, name_start, name_byte, identifier, numeral, name_test};
ghost use Rattle.words.specs.Slots.{word_slot, slot_entry};

#[derive(Clone, Copy, Debug, PartialEq, Eq)]
pub enum NameTest {
    Name,
    Reserved,
    NotIdentifier,
}

// Whether two atoms have equal bytes. No byte is looked at where the lengths differ; else the search ends at the first byte that does.
pub fn same_bytes(a: &[u8], b: &[u8]) -> bool
    ensures { result ≡ same_bytes a.now b.now }
{
    let n = a.len();
    n == b.len() && differences::first_difference(a, b) == n
}

// The slot in which a word of fewer than eight bytes is looked for, by its number: no two of the reserved ones share one.
fn word_slot(number: u64) -> u64
    ensures { result ≡ word_slot number }
{
    number % 0x1_0000_0000 * 5011 / 0x10_0000 % 32
}

// 2^58: what a place counts in an entry, above the number of the word.
const PLACE: u64 = 0x0400_0000_0000_0000;

// The entry of a slot: its reserved word's number and place; where there is none, those of the empty atom. With an arm for each slot this
// becomes a table that is read in place; an array would be copied at each call, and fewer arms become jumps.
#[tactic(auto, unfolding(crate::specs::Slots::slot_entry, crate::specs::Words::reserved_words, differences::specs::inner::Digits::digits))]
fn slot_entry(slot: u64) -> u64
    ensures { result ≡ slot_entry slot }
{
    match slot {
        0 => 0x24_000000016d616c, // 9 lam
        1 => 0x44_0000000000016a, // 17 j
        2 => 1,
        3 => 0x60_0000016f72657a, // 24 zero
        4 => 0x14_0165757161706f, // 5 opaque
        5 => 0x40_0000016c666572, // 16 refl
        6 => 0x34_00000001747366, // 13 fst
        7 => 0x05_65636166727573, // 1 surface
        8 => 1,
        9 => 0x6c_000000016e6e61, // 27 ann
        10 => 0x48_00017974706d65, // 18 empty
        11 => 0x30_00000172696170, // 12 pair
        12 => 1,
        13 => 0x38_00000001646e73, // 14 snd
        14 => 1,
        15 => 0x08_01656c75646f6d, // 2 module
        16 => 0x5c_0000000174616e, // 23 nat
        17 => 1,
        18 => 1,
        19 => 0x2c_0001616d676973, // 11 sigma
        20 => 0x3c_00000000016469, // 15 id
        21 => 0x18_00000001666572, // 6 ref
        22 => 1,
        23 => 1,
        24 => 1,
        25 => 0x54_00000172617473, // 21 star
        26 => 0x20_00000000016970, // 8 pi
        27 => 0x50_00000174696e75, // 20 unit
        28 => 1,
        29 => 0x64_00000163637573, // 25 succ
        30 => 0x28_00000001707061, // 10 app
        _ => 1,
    }
}

// The place of an atom of fewer than eight bytes, by its number: its bytes, the first one last, behind a digit 1.
fn short_index(w: &[u8]) -> u8
    requires { length w.now < 8 }
    ensures { result ≡ word_index w.now }
{
    let number = differences::number(1, w);
    let slot = word_slot(number);
    // The entry is asked for in each place: kept, it becomes jumps.
    if slot_entry(slot) % PLACE == number {
        (slot_entry(slot) / PLACE) as u8
    } else {
        0
    }
}

// Which of two words an atom is, by their places; 0 where it is neither.
fn one_of(w: &[u8], first: &[u8], i: u8, second: &[u8], j: u8) -> u8
    ensures { result ≡ cond (same_bytes w.now first.now) i (cond (same_bytes w.now second.now) j 0) }
{
    if same_bytes(w, first) {
        i
    } else if same_bytes(w, second) {
        j
    } else {
        0
    }
}

// The place of an atom that is as long as a longer reserved word.
fn long_index(w: &[u8]) -> u8
    requires { (8 ≤ length w.now) × (length w.now ≤ 11) }
    ensures { result ≡ word_index w.now }
{
    match w.len() {
        8 => one_of(w, b"universe", 7, b"nat-elim", 26),
        9 => one_of(w, b"postulate", 3, b"unit-elim", 22),
        _ => one_of(w, b"empty-elim", 19, b"transparent", 4),
    }
}

// The place of an atom among the reserved words, from 1; 0 for any other. No reserved word has more than 11 bytes.
pub fn word_index(w: &[u8]) -> u8
    ensures { result ≡ word_index w.now }
{
    match w.len() {
        0..8 => short_index(w),
        8..=11 => long_index(w),
        _ => 0,
    }
}

pub fn is_reserved(w: &[u8]) -> bool
    ensures { result ≡ reserved w.now }
{
    word_index(w) != 0
}

pub fn is_name_start(b: u8) -> bool
    ensures { result ≡ name_start b }
{
    b.is_ascii_alphabetic() || b == b'_'
}

pub fn is_digit(b: u8) -> bool
    ensures { result ≡ digit b }
{
    b.is_ascii_digit()
}

pub fn is_name_byte(b: u8) -> bool
    ensures { result ≡ name_byte b }
{
    is_name_start(b) || is_digit(b)
}

pub fn is_identifier(w: &[u8]) -> bool
    ensures { result ≡ identifier w.now }
{
    match w.split_first() {
        Some((&first, rest)) => is_name_start(first) && rest.iter().all(|&b| is_name_byte(b)),
        None => false,
    }
}

pub fn is_numeral(w: &[u8]) -> bool
    ensures { result ≡ numeral w.now }
{
    match w.split_first() {
        Some((b'0', rest)) => rest.is_empty(),
        Some(_) => w.iter().all(|&b| is_digit(b)),
        None => false,
    }
}

// The reserved test comes before the identifier test.
pub fn name_test(w: &[u8]) -> NameTest
    ensures { result ≡ name_test w.now }
{
    if is_reserved(w) {
        NameTest::Reserved
    } else if is_identifier(w) {
        NameTest::Name
    } else {
        NameTest::NotIdentifier
    }
}
