// The words of the terms' kinds, in a core row's numbering: one table for the listing and for core text.
#![tactic(auto)]

ghost use Rattle.std.specs.Prelude.{◌≡◌};
ghost use Rattle.terms.specs.Label.{part};
ghost use Rattle.kind_words.specs.KindWords.{words, word_of_kind, field_count};

// The words of the kinds, one behind the other.
pub const WORDS: [u8; 104] =
    *b"varglobaluniversepilamappsigmapairfstsndidrefljemptyempty-elimunitstarunit-elimnatzerosuccnat-elimannref";

// Start and length of a kind's word in WORDS, and how many numbers stand behind the word in a row's line of the listing.
#[derive(Clone, Copy, Debug, PartialEq, Eq)]
pub struct Kind(pub u8, pub u8, pub u8);

const KINDS: [Kind; 26] = [
    Kind(0, 0, 0), // no kind
    Kind(0, 3, 1), // var
    Kind(3, 6, 1), // global
    Kind(9, 8, 0), // universe
    Kind(17, 2, 2), // pi
    Kind(19, 3, 1), // lam
    Kind(22, 3, 2), // app
    Kind(25, 5, 2), // sigma
    Kind(30, 4, 2), // pair
    Kind(34, 3, 1), // fst
    Kind(37, 3, 1), // snd
    Kind(40, 2, 3), // id
    Kind(42, 4, 1), // refl
    Kind(46, 1, 6), // j
    Kind(47, 5, 0), // empty
    Kind(52, 10, 2), // empty-elim
    Kind(62, 4, 0), // unit
    Kind(66, 4, 0), // star
    Kind(70, 9, 3), // unit-elim
    Kind(79, 3, 0), // nat
    Kind(82, 4, 0), // zero
    Kind(86, 4, 1), // succ
    Kind(90, 8, 4), // nat-elim
    Kind(98, 3, 2), // ann
    Kind(101, 3, 0), // ref
    Kind(0, 0, 2), // an arrow, which no core row is
];

pub fn kind_at(kind: u32) -> Kind
    ensures result_value { part words result.0 result.1 ≡ word_of_kind kind }
    ensures result_value_2 { result.2 ≡ field_count kind }
{
    KINDS.get(kind as usize).copied().unwrap_or(Kind(0, 0, 0))
}
