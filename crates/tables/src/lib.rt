// The lent tables of words: one word read, a run of words stored, the rest cleared. Rows, records and frames are runs of words.
#![tactic(auto)]

ghost use Rattle.std.specs.Prelude.{◌≡◌, ◌+◌, ◌≤◌, length, get_or};
ghost use Rattle.tables.specs.Tables.{fits, with_words, stored, cleared};

// The word at i, and 0 behind the end.
pub fn word_at(t: &[u32], i: usize) -> u32
    ensures { result ≡ get_or t.now i 0 }
{
    t.get(i).copied().unwrap_or(0)
}

// Stores words from word `at` on, where they fit. A row is stored out of registers; `copy_from_slice` would lay it on the stack first.
pub fn put(t: &mut [u32], at: usize, words: &[u32])
    requires { at + length words.now ≤ length t.old }
    ensures { t.new ≡ with_words t.old at words.now }
{
    for (i, word) in words.iter().enumerate() {
        t[at + i] = *word;
    }
}

// The same, and answers true; or false where they do not fit.
#[tactic(auto, using(crate::proofs::Storing::stored_fits, crate::proofs::Storing::stored_not))]
pub fn store(t: &mut [u32], at: usize, words: &[u32]) -> bool
    ensures value { result ≡ fits t.old at words.now }
    ensures t_after { t.new ≡ stored t.old at words.now }
{
    if t.len() < words.len() || t.len() - words.len() < at {
        return false;
    }
    put(t, at, words);
    true
}

// 0 from word `from` on.
pub fn clear_from(t: &mut [u32], from: usize)
    ensures { t.new ≡ cleared t.old from }
{
    let kept = from.min(t.len());
    t[kept..].fill(0);
}
