// Whether a core text has the layout of its own print, by one scan of its tokens. It takes the place of the print in the last test of
// `parse_canonical` in format/parser.rs. Document 02, Req 03.
#![tactic(auto)]

ghost use Rattle.std.specs.Prelude.{◌≡◌, [], ◌∷◌, ◌-◌, ◌≤◌, length};
ghost use Rattle.words.specs.Words.{same_bytes};
ghost use Rattle.terms.specs.Label.{part};
ghost use Rattle.core_layout.specs.inner.Layout.{gap, canonical_layout};

use core_token::next_core_token;
use token::TokenKind;

// Whether nothing stands from one offset up to another.
fn is_nothing(t: &[u8], from: usize, to: usize) -> bool
    requires { (from ≤ to) × (to ≤ length t.now) }
    ensures { result ≡ same_bytes (part t.now from (to - from)) [] }
{
    from == to
}

// Whether the byte b stands there, and nothing else.
fn is_byte(t: &[u8], from: usize, to: usize, b: u8) -> bool
    requires { (from ≤ to) × (to ≤ length t.now) }
    ensures { result ≡ same_bytes (part t.now from (to - from)) (b ∷ []) }
{
    to - from == 1 && t[from] == b
}

// Whether the gap of a print stands there, in front of a token of a kind.
fn is_gap(t: &[u8], from: usize, to: usize, tight: bool, kind: TokenKind) -> bool
    requires { (from ≤ to) × (to ≤ length t.now) }
    ensures { result ≡ same_bytes (part t.now from (to - from)) (gap tight kind) }
{
    match kind {
        _ if tight => is_nothing(t, from, to),
        TokenKind::RParen => is_nothing(t, from, to),
        TokenKind::Eof => is_byte(t, from, to, b'\n'),
        _ => is_byte(t, from, to, b' '),
    }
}

// `tight`: at the text's start, or behind an opening parenthesis.
pub fn is_canonical_layout(t: &[u8]) -> bool
    ensures { result ≡ canonical_layout t.now }
{
    let mut at = 0;
    let mut tight = true;
    loop {
        let Ok(token) = next_core_token(t, at) else {
            return false;
        };
        if !is_gap(t, at, token.start, tight, token.kind) {
            return false;
        }
        if token.kind == TokenKind::Eof {
            return true;
        }
        at = token.end;
        tight = token.kind == TokenKind::LParen;
    }
}
