// The lexer: a record that refers to the source and holds a position. The port of `Lexer` in surface/parser.rs.
// The functions over such a record are few and thin: they take it apart and call `step`, which has plain parameters, as has `lex`.
#![tactic(auto)]

ghost use Rattle.std.specs.Prelude.{◌≡◌};
ghost use Rattle.token.specs.Token.{next_token};
ghost use Rattle.lexer.specs.Lexing.{offset_or, position_after, step_at};

use token::{Refusal, Token};

#[derive(Clone, Copy)]
pub struct Lexer<'a> {
    pub input: &'a [u8],
    pub pos: usize,
}

// What is read at a position, and the position behind it.
#[derive(Clone, Copy, Debug, PartialEq, Eq)]
pub struct Stepped {
    pub lexed: Result<Token, Refusal>,
    pub pos: usize,
}

fn offset_or(place: Option<usize>, at: usize) -> usize
    ensures { result ≡ offset_or at place }
{
    place.unwrap_or(at)
}

fn position_after(lexed: Result<Token, Refusal>, at: usize) -> usize
    ensures { result ≡ position_after lexed at }
{
    match lexed {
        Ok(t) => t.end,
        Err(refusal) => offset_or(refusal.place, at),
    }
}

// The first token at or behind `at`, and where a lexer stands then.
pub fn step(s: &[u8], at: usize) -> Stepped
    ensures { result ≡ step_at s.now at }
{
    let lexed = token::next_token(s, at);
    let pos = position_after(lexed, at);
    Stepped { lexed, pos }
}

impl<'a> Lexer<'a> {
    pub fn new(input: &'a [u8]) -> Lexer<'a>
        ensures { (result.input ≡ input.entry) × (result.pos ≡ 0) }
    {
        Lexer { input, pos: 0 }
    }

    // The first token at or behind the lexer's position. The position moves on.
    pub fn next_token<'s>(&'s mut self) -> Result<Token, Refusal>
        ensures { (result ≡ next_token self.old.input.now self.old.pos) × ((self.new.input ≡ self.old.input) × (self.new.pos ≡ position_after result self.old.pos)) }
    {
        let read = step(self.input, self.pos);
        self.pos = read.pos;
        read.lexed
    }
}

// The same by plain parameters: what a lexer of a source reads at a position, and where it stands then.
pub fn lex(input: &[u8], at: usize) -> Stepped
    ensures { result ≡ step_at input.now at }
{
    let mut lexer = Lexer { input, pos: at };
    let lexed = lexer.next_token();
    Stepped {
        lexed,
        pos: lexer.pos,
    }
}
