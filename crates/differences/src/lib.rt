// The first place where two equally long names differ: the search under the comparison of names. Document 02, Req 02.
#![tactic(auto)]

ghost use Rattle.std.specs.Prelude.{◌≡◌, ◌+◌, ◌≤◌, length};
ghost use Rattle.differences.specs.Differences.{first_difference};
ghost use Rattle.differences.specs.inner.Digits.{digits};
ghost use Rattle.differences.specs.inner.Shared.{Shared};

// How many bytes of two names are compared at once.
const BLOCK: usize = 8;

// A few bytes as a number: digits of base 256, the first byte last, behind a first digit. For eight bytes this loop becomes one read.
pub fn number(first: u64, w: &[u8]) -> u64
    requires { (first ≤ 1) × (first + length w.now ≤ 8) }
    ensures { result ≡ digits first w.now }
{
    let mut number = first;
    for byte in w.iter().rev() {
        number = number * 256 + u64::from(*byte);
    }
    number
}

// Behind the first blocks, all that two names share up to one in which they differ.
fn shared_blocks(a: &[u8], b: &[u8]) -> usize
    requires { length a.now ≡ length b.now }
    ensures { Shared a.now b.now result }
{
    let mut shared = 0;
    // The loop then sees that both are of one length, and one test ends it.
    let b = &b[..a.len()];
    for (x, y) in a.chunks_exact(BLOCK).zip(b.chunks_exact(BLOCK)) {
        if number(0, x) != number(0, y) {
            return shared;
        }
        shared += BLOCK;
    }
    shared
}

// The first place where two names of one length differ; their length where there is none. Often the first byte tells.
pub fn first_difference(a: &[u8], b: &[u8]) -> usize
    requires { length a.now ≡ length b.now }
    ensures { result ≡ first_difference a.now b.now }
{
    let n = a.len();
    if 0 < n && a[0] != b[0] {
        return 0;
    }
    for i in shared_blocks(a, b)..n {
        if a[i] != b[i] {
            return i;
        }
    }
    n
}
