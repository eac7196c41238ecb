// The inner layers as plain numbers, for tests in Rust to link: `rt staticlib probe`.
#![tactic(auto)]

ghost use Rattle.std.specs.Prelude.{◌≡◌};
ghost use Rattle.token.specs.Token.{next_token};
ghost use Rattle.words.specs.Words.{same_bytes, word_index, numeral, name_test};
ghost use Rattle.utf8.specs.Utf8.{valid_length, byte_order_mark};
ghost use Rattle.probe.specs.Numbers.{place_number, token_number, kind_number, start_number, end_number, test_number, difference_number};

use token::{Refusal, Token, TokenKind};
use words::NameTest;

// No name is so long.
const NO_PLACE: usize = 18446744073709551615;

fn place_number(p: Option<usize>) -> usize
    ensures { result ≡ place_number p }
{
    match p {
        Some(at) => at,
        None => 0,
    }
}

fn token_number(k: TokenKind) -> u8
    ensures { result ≡ token_number k }
{
    match k {
        TokenKind::LParen => 1,
        TokenKind::RParen => 2,
        TokenKind::Atom => 3,
        TokenKind::Eof => 4,
        TokenKind::String => 5,
    }
}

fn kind_number(lexed: Result<Token, Refusal>) -> u8
    ensures { result ≡ kind_number lexed }
{
    match lexed {
        Err(_) => 0,
        Ok(t) => {
            let kind = t.kind;
            token_number(kind)
        }
    }
}

fn start_number(lexed: Result<Token, Refusal>) -> usize
    ensures { result ≡ start_number lexed }
{
    match lexed {
        Err(refusal) => {
            let place = refusal.place;
            place_number(place)
        }
        Ok(t) => t.start,
    }
}

fn end_number(lexed: Result<Token, Refusal>) -> usize
    ensures { result ≡ end_number lexed }
{
    match lexed {
        Err(refusal) => {
            let place = refusal.place;
            place_number(place)
        }
        Ok(t) => t.end,
    }
}

// 0 for a refused byte, else the token's kind.
#[unsafe(no_mangle)]
pub extern "C" fn sulyterom_token_kind(s: &[u8], at: usize) -> u8
    ensures { result ≡ kind_number (next_token s.now at) }
{
    kind_number(token::next_token(s, at))
}

// Where the token starts, or the refused byte.
#[unsafe(no_mangle)]
pub extern "C" fn sulyterom_token_start(s: &[u8], at: usize) -> usize
    ensures { result ≡ start_number (next_token s.now at) }
{
    start_number(token::next_token(s, at))
}

// Where the token ends, or the refused byte.
#[unsafe(no_mangle)]
pub extern "C" fn sulyterom_token_end(s: &[u8], at: usize) -> usize
    ensures { result ≡ end_number (next_token s.now at) }
{
    end_number(token::next_token(s, at))
}

fn test_number(t: NameTest) -> u8
    ensures { result ≡ test_number t }
{
    match t {
        NameTest::Name => 0,
        NameTest::Reserved => 3,
        NameTest::NotIdentifier => 1,
    }
}

#[unsafe(no_mangle)]
pub extern "C" fn sulyterom_word_index(w: &[u8]) -> u8
    ensures { result ≡ word_index w.now }
{
    words::word_index(w)
}

// 0 for a name of edition 0 1, else the class that refuses it.
#[unsafe(no_mangle)]
pub extern "C" fn sulyterom_name_test(w: &[u8]) -> u8
    ensures { result ≡ test_number (name_test w.now) }
{
    test_number(words::name_test(w))
}

#[unsafe(no_mangle)]
pub extern "C" fn sulyterom_is_numeral(w: &[u8]) -> bool
    ensures { result ≡ numeral w.now }
{
    words::is_numeral(w)
}

#[unsafe(no_mangle)]
pub extern "C" fn sulyterom_same_bytes(a: &[u8], b: &[u8]) -> bool
    ensures { result ≡ same_bytes a.now b.now }
{
    words::same_bytes(a, b)
}

// The first place where two names of one length differ, or their length; NO_PLACE for two of other lengths.
#[unsafe(no_mangle)]
pub extern "C" fn sulyterom_first_difference(a: &[u8], b: &[u8]) -> usize
    ensures { result ≡ difference_number a.now b.now }
{
    if a.len() != b.len() {
        return NO_PLACE;
    }
    differences::first_difference(a, b)
}

#[unsafe(no_mangle)]
pub extern "C" fn sulyterom_valid_up_to(s: &[u8]) -> usize
    ensures { result ≡ valid_length s.now }
{
    utf8::valid_up_to(s)
}

#[unsafe(no_mangle)]
pub extern "C" fn sulyterom_starts_with_mark(s: &[u8]) -> bool
    ensures { result ≡ byte_order_mark s.now }
{
    utf8::starts_with_mark(s)
}
