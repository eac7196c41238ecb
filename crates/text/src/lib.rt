// Text written into a lent buffer, piece by piece. A text that does not fit is cut, and its length is told as one more than the buffer's.
#![tactic(auto)]

ghost use Rattle.std.specs.Prelude.{◌≡◌, [], ◌∷◌, ◌+◌, length};
ghost use Rattle.std.proofs.lemmas.List.Edits.{sets};
ghost use Rattle.text.specs.Text.{length_in, digits, decimal};

// One byte at `at`, where it fits. Answers the offset behind it.
pub fn put_byte(out: &mut [u8], at: usize, b: u8) -> usize
    ensures out_after { out.new ≡ sets out.old at (b ∷ []) }
    ensures value { result ≡ length_in out.old (at + 1) }
{
    if at < out.len() {
        out[at] = b;
        return at + 1;
    }
    out.len() + 1
}

// Bytes from `at` on. Answers the offset behind them.
pub fn put(out: &mut [u8], at: usize, bytes: &[u8]) -> usize
    ensures out_after { out.new ≡ sets out.old at bytes.now }
    ensures value { result ≡ length_in out.old (at + length bytes.now) }
{
    // Behind the end nothing is written, however many bytes there are.
    if out.len() < at {
        return out.len() + 1;
    }
    let mut behind = at;
    for byte in bytes {
        behind = put_byte(out, behind, *byte);
    }
    behind
}

// The digits of n, of which there are at most so many.
#[tactic(auto, using(crate::proofs::Digits::digits_none, crate::proofs::Digits::digits_one))]
fn put_digits(out: &mut [u8], at: usize, places: u8, n: u64) -> usize
    ensures out_after { out.new ≡ sets out.old at (digits places n) }
    ensures value { result ≡ length_in out.old (at + length (digits places n)) }
{
    if places == 0 {
        return put(out, at, b"");
    }
    if n < 10 {
        return put_byte(out, at, 48 + n as u8);
    }
    let next = put_digits(out, at, places - 1, n / 10);
    put_byte(out, next, 48 + (n % 10) as u8)
}

// A number in decimal. Answers the offset behind it.
#[tactic(auto, unfolding(crate::specs::Text::decimal))]
pub fn put_decimal(out: &mut [u8], at: usize, n: u64) -> usize
    ensures out_after { out.new ≡ sets out.old at (decimal n) }
    ensures value { result ≡ length_in out.old (at + length (decimal n)) }
{
    put_digits(out, at, 20, n)
}
