// The declaration list as a slice of records, document 01's "the declaration list is lent as a slice of records".
// The functions over such a slice are few and thin: what they call stands over words.
#![tactic(auto)]

ghost use Rattle.std.specs.Prelude.{◌≡◌, length, get_or, set};
ghost use Rattle.records.specs.Records.{blank, record_at, record_put, records_of, words_of, word_limit};

// The five words of a declaration record.
#[repr(C)]
#[derive(Clone, Copy, Debug, Default, PartialEq, Eq)]
pub struct Declaration {
    pub kind: u32,
    pub name_start: u32,
    pub name_length: u32,
    pub type_row: u32,
    pub body_row: u32,
}

// What an unused place holds.
pub fn no_declaration() -> Declaration
    ensures { result ≡ blank }
{
    Declaration::default()
}

// Record k of a table of words; a blank behind the last whole record.
#[tactic(auto, unfolding(crate::specs::Records::record_at))]
pub fn record_at(words: &[u32], k: usize) -> Declaration
    ensures { result ≡ record_at words.now k }
{
    if k < words.len() / 5 {
        let at = k * 5;
        return Declaration {
            kind: words[at],
            name_start: words[at + 1],
            name_length: words[at + 2],
            type_row: words[at + 3],
            body_row: words[at + 4],
        };
    }
    no_declaration()
}

// The words of record k are set to a record's fields, where the table has them.
#[tactic(auto, unfolding(crate::specs::Records::record_put))]
pub fn put_record(words: &mut [u32], k: usize, d: Declaration)
    ensures { words.new ≡ record_put words.old k d }
{
    if k < words.len() / 5 {
        let at = k * 5;
        words[at] = d.kind;
        words[at + 1] = d.name_start;
        words[at + 2] = d.name_length;
        words[at + 3] = d.type_row;
        words[at + 4] = d.body_row;
    }
}

// How many words of a table a list of so many records takes; all of them where there is no room for so many.
#[tactic(auto, unfolding(crate::specs::Records::word_limit))]
pub fn word_limit(count: usize, words: usize) -> usize
    ensures { result ≡ word_limit count words }
{
    if count < words / 5 {
        return count * 5;
    }
    words
}

// Reads one record; past the end a blank.
pub fn declaration_at(list: &[Declaration], k: usize) -> Declaration
    ensures { result ≡ get_or list.now k blank }
{
    list.get(k).copied().unwrap_or_default()
}

// Writes one record; past the end nothing.
pub fn put_declaration(list: &mut [Declaration], k: usize, d: Declaration)
    ensures { list.new ≡ set list.old k d }
{
    if k < list.len() {
        list[k] = d;
    }
}

// Sets each record of the list to what the table of words has at its place.
#[tactic(auto, using(crate::proofs::Written::written_next), unfolding(crate::specs::Records::records_from))]
pub fn write_records(words: &[u32], list: &mut [Declaration])
    ensures { list.new ≡ records_of words.now (length list.old) }
{
    for (k, place) in list.iter_mut().enumerate() {
        *place = record_at(words, k);
    }
}

// Sets the words of each record, for callers that have no such list.
#[tactic(auto, using(crate::proofs::Worded::worded_next), unfolding(crate::specs::Records::words_of))]
pub fn write_words(list: &[Declaration], words: &mut [u32])
    ensures { words.new ≡ words_of list.now 0 words.old }
{
    for (k, d) in list.iter().enumerate() {
        put_record(words, k, *d);
    }
}
