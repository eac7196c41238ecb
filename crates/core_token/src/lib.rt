// The tokens of core text: layout, parentheses, atoms, strings, refused bytes and the end. There are no comments.
// The port of `Lexer` in format/parser.rs. Document 02, Req 03.
#![tactic(auto)]

ghost use Rattle.std.specs.Prelude.{◌≡◌, ◌||◌, ◌<◌, eqb, drop};
ghost use Rattle.token.specs.Token.{token, malformed};
ghost use Rattle.core_token.specs.CoreToken.{core_class, string_class, core_atom_from, closed, nothing, string_from, next_core_token};

use token::{Class, Refusal, Token, TokenKind};

// What a byte is for outside strings.
#[derive(Clone, Copy, Debug, PartialEq, Eq)]
pub enum CoreClass {
    Layout,
    LParen,
    RParen,
    Quote,
    Atom,
    Refused,
}

// What a byte inside a string is: `Lead` is the first byte of U+0080 to U+00BF.
#[derive(Clone, Copy, Debug, PartialEq, Eq)]
pub enum StringClass {
    Quote,
    Backslash,
    Control,
    Lead,
    Direct,
}

// What a byte is for. Most bytes of atoms are told first.
pub fn core_class(b: u8) -> CoreClass
    ensures { result ≡ core_class b }
{
    match b {
        42..=126 => CoreClass::Atom,
        b'\t' | b'\n' | b'\r' | b' ' => CoreClass::Layout,
        b'"' => CoreClass::Quote,
        b'(' => CoreClass::LParen,
        b')' => CoreClass::RParen,
        33..=39 => CoreClass::Atom,
        _ => CoreClass::Refused,
    }
}

// What a byte of a string is. Small letters, the most frequent, are told first.
pub fn string_class(b: u8) -> StringClass
    ensures { result ≡ string_class b }
{
    match b {
        93..=126 => StringClass::Direct,
        b'"' => StringClass::Quote,
        b'\\' => StringClass::Backslash,
        0..=31 => StringClass::Control,
        127 => StringClass::Control,
        194 => StringClass::Lead,
        _ => StringClass::Direct,
    }
}

fn malformed_at(at: usize) -> Result<Token, Refusal>
    ensures { result ≡ malformed at }
{
    Err(Refusal::at(Class::Malformed, at))
}

fn token_of(kind: TokenKind, start: usize, end: usize) -> Result<Token, Refusal>
    ensures { result ≡ token kind start end }
{
    Ok(Token { kind, start, end })
}

// The atom that starts at `start`, of which the bytes before `at` are read.
fn lex_atom(s: &[u8], start: usize, at: usize) -> Result<Token, Refusal>
    ensures { result ≡ core_atom_from start at (drop at s.now) }
{
    for pos in at..s.len() {
        match core_class(s[pos]) {
            CoreClass::Atom => {}
            CoreClass::Refused => return malformed_at(pos),
            _ => return token_of(TokenKind::Atom, start, pos),
        }
    }
    token_of(TokenKind::Atom, start, at.max(s.len()))
}

// The string that starts at `start` and is closed by the quote at `at`: an empty one is refused.
fn close_string(start: usize, at: usize) -> Result<Token, Refusal>
    requires { (start < at) × (at < 18446744073709551615) }
    ensures { result ≡ closed start at }
{
    if at == start + 1 {
        return malformed_at(start);
    }
    token_of(TokenKind::String, start, at + 1)
}

// Whether a byte may stand behind a backslash.
fn is_escaped(b: u8) -> bool
    ensures { result ≡ (eqb b 34 || eqb b 92) }
{
    matches!(b, b'"' | b'\\')
}

// The string that starts at `start`, of which the bytes before `at` are read and nothing stands open. An escape and the bytes of
// U+0080 to U+00BF are passed two at a time, which no range counts.
fn lex_string(s: &[u8], start: usize, at: usize) -> Result<Token, Refusal>
    requires { start < at }
    ensures { result ≡ string_from start nothing at (drop at s.now) }
{
    let mut pos = at;
    while pos < s.len() {
        match string_class(s[pos]) {
            StringClass::Direct => pos += 1,
            StringClass::Quote => return close_string(start, pos),
            StringClass::Control => return malformed_at(pos),
            StringClass::Backslash => {
                let Some(&b) = s.get(pos + 1) else {
                    return malformed_at(pos);
                };
                if !is_escaped(b) {
                    return malformed_at(pos);
                }
                pos += 2;
            }
            StringClass::Lead => match s.get(pos + 1) {
                Some(..=0x9F) => return malformed_at(pos),
                Some(_) => pos += 2,
                None => return malformed_at(start),
            },
        }
    }
    malformed_at(start)
}

// The first token at or behind `at`.
pub fn next_core_token(s: &[u8], at: usize) -> Result<Token, Refusal>
    ensures { result ≡ next_core_token s.now at }
{
    for pos in at..s.len() {
        match core_class(s[pos]) {
            CoreClass::Layout => {}
            CoreClass::LParen => return token_of(TokenKind::LParen, pos, pos + 1),
            CoreClass::RParen => return token_of(TokenKind::RParen, pos, pos + 1),
            CoreClass::Quote => return lex_string(s, pos, pos + 1),
            CoreClass::Atom => return lex_atom(s, pos, pos + 1),
            CoreClass::Refused => return malformed_at(pos),
        }
    }
    let end = at.max(s.len());
    token_of(TokenKind::Eof, end, end)
}
