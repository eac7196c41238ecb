// The token: layout, comments, parentheses, atoms, refused bytes and the end.
// The port of `Lexer` in surface/parser.rs. Document 01, "The token".
#![tactic(auto)]

mod byte_classes;

ghost use Rattle.std.specs.Prelude.{◌≡◌, Bool, false, ℕ, ◌+◌, ◌≤◌, ◌<◌, length, drop, get_or};
ghost use Rattle.token.specs.Token.{layout_end, atom_from, token_here, next_token};
ghost use Rattle.token.specs.Refusals.{number, nowhere, at_offset};
ghost use Rattle.token.specs.Classes.{SameLayout, LayoutOver, Run, atom_stops, NameAt};
ghost use Rattle.token.specs.Comments.{comment_end};
ghost use Rattle.token.specs.Blocks.{every, Passed};

pub use byte_classes::{Classes, class_table};

// What a byte is for.
#[derive(Clone, Copy, Debug, PartialEq, Eq)]
pub enum ByteClass {
    Layout,
    Comment,
    LParen,
    RParen,
    Atom,
    Refused,
}

// A string is a token of core text alone.
#[derive(Clone, Copy, Debug, PartialEq, Eq)]
pub enum TokenKind {
    LParen,
    RParen,
    Atom,
    String,
    Eof,
}

// The bytes from `start` up to `end`; the end token has none.
#[derive(Clone, Copy, Debug, PartialEq, Eq)]
pub struct Token {
    pub kind: TokenKind,
    pub start: usize,
    pub end: usize,
}

// Why a source or a call is refused, with document 01's numbers.
#[derive(Clone, Copy, Debug, PartialEq, Eq)]
pub enum Class {
    Malformed = 1,
    Version = 2,
    ReservedName = 3,
    DuplicateName = 4,
    UnknownName = 5,
    LongSource = 6,
    Frames = 7,
    SurfaceFull = 8,
    DeclarationsFull = 9,
    CoreShort = 10,
    WorkShort = 11,
    NoDeclaration = 12,
    CoreText = 13,
    TextShort = 14,
}

impl Class {
    pub fn number(self) -> u8
        ensures { result ≡ number self }
    {
        self as u8
    }
}

// A refusal: why, and where, which is an offset or nowhere.
#[derive(Clone, Copy, Debug, PartialEq, Eq)]
pub struct Refusal {
    pub class: Class,
    pub place: Option<usize>,
}

impl Refusal {
    pub fn at(class: Class, offset: usize) -> Refusal
        ensures { result ≡ at_offset class offset }
    {
        Refusal {
            class,
            place: Some(offset),
        }
    }

    pub fn nowhere(class: Class) -> Refusal
        ensures { result ≡ nowhere class }
    {
        Refusal { class, place: None }
    }
}

// The class numbers of the table: from ATOM on a byte makes atoms, from NAME on names, and from BEGINS on it begins one.
const LAYOUT: u8 = 0;

const COMMENT: u8 = 1;

const OPEN: u8 = 2;

const CLOSE: u8 = 3;

const REFUSED: u8 = 4;

const ATOM: u8 = 5;

const NAME: u8 = 6;

const BEGINS: u8 = 7;

// How many bytes of a comment are looked at together, and how many before they are looked at one by one.
const BLOCK: usize = 16;

const HALF: usize = 8;

// How many bytes of layout are looked at together.
const INDENT: usize = 8;

// Whether every byte of a block passes a test. For a block this loop becomes a few instructions on all of it.
fn all_pass<F: Fn(u8) -> bool>(block: &[u8], passes: F) -> bool
    requires { F.IsAlwaysCallable passes }
    ensures { (p : ℕ → Bool) → ((b : ℕ) (r : Bool) → F.post passes b r → r ≡ p b) → result ≡ every p block.now }
{
    block.iter().fold(true, |all, &b| all & passes(b))
}

// Behind the blocks of N bytes from `at` on whose bytes all pass a test.
fn skip_blocks<const N: usize, F: Fn(u8) -> bool>(s: &[u8], at: usize, passes: F) -> usize
    requires inside { at ≤ length s.now }
    requires size { 0 < N }
    requires callable { F.IsAlwaysCallable passes }
    ensures { (p : ℕ → Bool) → ((b : ℕ) (r : Bool) → F.post passes b r → r ≡ p b) → Passed p s.now at result }
{
    let mut behind = at;
    for block in s[at..].chunks_exact(N) {
        if !all_pass(block, &passes) {
            return behind;
        }
        behind += N;
    }
    behind
}

// Where the comment that `at` is in ends.
fn comment_end(s: &[u8], at: usize) -> usize
    requires { at ≤ length s.now }
    ensures { result ≡ comment_end at (drop at s.now) }
{
    let goes_on = |b| b != b'\n';
    let blocks = skip_blocks::<BLOCK, _>(s, at, goes_on);
    for pos in skip_blocks::<HALF, _>(s, blocks, goes_on)..s.len() {
        if s[pos] == b'\n' {
            return pos;
        }
    }
    s.len()
}

// Behind the bytes of layout from `at` on, up to the first `;` or what is no layout.
pub fn skip_blank(s: &[u8], classes: &Classes, at: usize) -> usize
    ensures same_layout { SameLayout s.now at result }
    ensures lower_bound { at ≤ result }
{
    for pos in at..s.len() {
        if classes.of(s[pos]) != LAYOUT {
            return pos;
        }
    }
    at.max(s.len())
}

// Behind the blocks of spaces from `at` on.
fn skip_spaces(s: &[u8], at: usize) -> usize
    requires { at ≤ length s.now }
    ensures { LayoutOver s.now at result }
{
    skip_blocks::<INDENT, _>(s, at, |b| b == b' ')
}

// Where the layout that starts at `at` ends. One comment or one run of blanks is passed at a time, which no range counts.
fn skip_layout(s: &[u8], classes: &Classes, at: usize) -> usize
    ensures { result ≡ layout_end false at (drop at s.now) }
{
    let mut pos = at;
    while pos < s.len() {
        match classes.of(s[pos]) {
            LAYOUT => {
                let behind = skip_spaces(s, pos + 1);
                pos = skip_blank(s, classes, behind);
            }
            COMMENT => pos = comment_end(s, pos + 1),
            _ => return pos,
        }
    }
    pos
}

// Behind the bytes from `at` on whose class numbers are `low` or more.
fn run_end(s: &[u8], classes: &Classes, at: usize, low: u8) -> usize
    ensures { Run s.now at low result }
{
    for pos in at..s.len() {
        if classes.of(s[pos]) < low {
            return pos;
        }
    }
    at.max(s.len())
}

// Whether an atom that goes up to `at` ends there: before layout, `;`, a parenthesis or the end.
fn stops(s: &[u8], classes: &Classes, at: usize) -> bool
    ensures { result ≡ atom_stops s.now at }
{
    match s.get(at) {
        Some(&b) => classes.of(b) < REFUSED,
        None => true,
    }
}

// The end of the atom that starts at `start`, if it is one and an identifier; else `start`. No byte of it is looked at again.
pub fn name_end(s: &[u8], classes: &Classes, start: usize) -> usize
    ensures { start < result → NameAt s.now start result }
{
    match s.get(start) {
        Some(&b) if classes.of(b) == BEGINS => {
            let end = run_end(s, classes, start + 1, NAME);
            if stops(s, classes, end) { end } else { start }
        }
        _ => start,
    }
}

// The atom that starts at `start`, which is an atom's byte.
fn lex_atom(s: &[u8], classes: &Classes, start: usize) -> Result<Token, Refusal>
    requires { start < length s.now }
    ensures { result ≡ atom_from start (start + 1) (drop (start + 1) s.now) }
{
    let end = run_end(s, classes, start + 1, ATOM);
    if stops(s, classes, end) {
        Ok(Token {
            kind: TokenKind::Atom,
            start,
            end,
        })
    } else {
        Err(Refusal::at(Class::Malformed, end))
    }
}

// The token that starts at `start`, where no layout is.
fn token_at(s: &[u8], classes: &Classes, start: usize) -> Result<Token, Refusal>
    requires { start < length s.now }
    ensures { result ≡ token_here start (drop start s.now) }
{
    let kind = match classes.of(s[start]) {
        ATOM.. => return lex_atom(s, classes, start),
        OPEN => TokenKind::LParen,
        CLOSE => TokenKind::RParen,
        _ => return Err(Refusal::at(Class::Malformed, start)),
    };
    Ok(Token {
        kind,
        start,
        end: start + 1,
    })
}

// The first token at or behind `at`, by the table of byte classes.
pub fn next_token_by(s: &[u8], classes: &Classes, at: usize) -> Result<Token, Refusal>
    ensures { result ≡ next_token s.now at }
{
    let start = skip_layout(s, classes, at);
    if start >= s.len() {
        return Ok(Token {
            kind: TokenKind::Eof,
            start,
            end: start,
        });
    }
    token_at(s, classes, start)
}

// The same, where one token is asked for: the table is made for it.
pub fn next_token(s: &[u8], at: usize) -> Result<Token, Refusal>
    ensures { result ≡ next_token s.now at }
{
    let classes = Classes::new();
    next_token_by(s, &classes, at)
}
