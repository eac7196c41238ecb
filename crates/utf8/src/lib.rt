// Whether a source is UTF-8, and whether it begins with EF BB BF: what `parse_surface` asks of the standard library.
#![tactic(auto)]

ghost use Rattle.std.specs.Prelude.{◌≡◌, ◌+◌, ◌≤◌, length, take, drop};
ghost use Rattle.utf8.specs.Utf8.{range, in_range, valid_length, byte_order_mark};
ghost use Rattle.utf8.specs.Sequences.{second, sequence, First, Pairs};
ghost use Rattle.utf8.specs.Ascii.{ascii, ascii_end, SameEnd};

// Whether a byte is one from low to high.
fn between(low: u8, high: u8, b: u8) -> bool
    ensures { result ≡ in_range (range low high) b }
{
    low <= b && b <= high
}

// Whether a byte is the second of a sequence of three or four bytes, by the first.
#[tactic(auto, unfolding(crate::specs::Sequences::second))]
fn is_second(first: u8, b: u8) -> bool
    ensures { result ≡ in_range (second first) b }
{
    match first {
        0xE0 => between(0xA0, 0xBF, b),
        0xED => between(0x80, 0x9F, b),
        0xF0 => between(0x90, 0xBF, b),
        0xF4 => between(0x80, 0x8F, b),
        _ => between(0x80, 0xBF, b),
    }
}

// The length of the sequence of three bytes at `at`; 0 where a byte is not the right one.
fn three(s: &[u8], at: usize) -> usize
    requires { First s.now at 3 0xE0 0xEF }
    ensures { result ≡ sequence (drop at s.now) }
{
    if is_second(s[at], s[at + 1]) && between(0x80, 0xBF, s[at + 2]) {
        3
    } else {
        0
    }
}

// The same of four bytes. One function of both would ask for their number once more, and so would its proof.
fn four(s: &[u8], at: usize) -> usize
    requires { First s.now at 4 0xF0 0xF4 }
    ensures { result ≡ sequence (drop at s.now) }
{
    if is_second(s[at], s[at + 1])
        && between(0x80, 0xBF, s[at + 2])
        && between(0x80, 0xBF, s[at + 3])
    {
        4
    } else {
        0
    }
}

// Behind the sequences of two bytes from `at` on.
fn skip_pairs(s: &[u8], at: usize) -> usize
    requires { at ≤ length s.now }
    ensures { Pairs s.now at result }
{
    let mut behind = at;
    for pair in s[at..].chunks_exact(2) {
        if !between(0xC2, 0xDF, pair[0]) || !between(0x80, 0xBF, pair[1]) {
            return behind;
        }
        behind += 2;
    }
    behind
}

// The length of the sequence at `at`, whose first byte is behind those of two bytes; 0 where it is broken or cut off.
fn long_sequence(s: &[u8], at: usize) -> usize
    requires { First s.now at 1 0xE0 0xFF }
    ensures { result ≡ sequence (drop at s.now) }
{
    let left = s.len() - at;
    match s[at] {
        ..0xF0 if 3 <= left => three(s, at),
        0xF0..=0xF4 if 4 <= left => four(s, at),
        _ => 0,
    }
}

// How many bytes are looked at together.
const BLOCK: usize = 64;

// Whether a block is ASCII: its greatest byte is. For a block this loop becomes a few instructions on all of it.
fn is_ascii(block: &[u8]) -> bool
    ensures { result ≡ ascii block.now }
{
    block.iter().fold(0u8, |greatest, &b| greatest.max(b)) < 0x80
}

// Behind the blocks of ASCII from `at` on.
fn skip_blocks(s: &[u8], at: usize) -> usize
    requires { at ≤ length s.now }
    ensures { SameEnd s.now at result }
{
    let mut behind = at;
    for block in s[at..].chunks_exact(BLOCK) {
        if !is_ascii(block) {
            return behind;
        }
        behind += BLOCK;
    }
    behind
}

// The first byte from `at` on that is not ASCII, or the end. Often it stands at `at`, behind a space between two words.
fn skip_ascii(s: &[u8], at: usize) -> usize
    requires { at ≤ length s.now }
    ensures { result ≡ ascii_end at (drop at s.now) }
{
    let n = s.len();
    if at < n && 0x80 <= s[at] {
        return at;
    }
    for i in skip_blocks(s, at)..n {
        if 0x80 <= s[i] {
            return i;
        }
    }
    n
}

// The length of the longest beginning that is UTF-8: `valid_up_to` of Rust's `Utf8Error`, or the whole length.
// The bytes before `i` are whole sequences.
pub fn valid_up_to(s: &[u8]) -> usize
    ensures { result ≡ valid_length s.now }
{
    let mut i = 0;
    while i < s.len() {
        let b = s[i];
        if b < 0x80 {
            i = skip_ascii(s, i + 1);
        } else if b < 0xE0 {
            let behind = skip_pairs(s, i);
            if behind == i {
                return i;
            }
            i = behind;
        } else {
            let n = long_sequence(s, i);
            if n == 0 {
                return i;
            }
            i += n;
        }
    }
    i
}

// Whether the byte order mark leads.
pub fn starts_with_mark(s: &[u8]) -> bool
    ensures { result ≡ byte_order_mark s.now }
{
    s.starts_with(b"\xEF\xBB\xBF")
}
