// What must stand next: a parenthesis, a word, a numeral, a name, a term's beginning, the head.
// The port of `Parser::next_atom`, `expect_*`, `parse_natural`, `parse_identifier` and of what `parse_term` and `parse_module` begin with.
#![tactic(auto)]

ghost use Rattle.std.specs.Prelude.{◌≡◌, ◌≤◌, ◌<◌, length, IfSome};
ghost use Rattle.token.specs.Classes.{NameAt};
ghost use Rattle.terms.specs.Forms.{forms, forms_0_2, form_of_word};
ghost use Rattle.terms.specs.TextForms.{text_forms};
ghost use Rattle.core_text.specs.TextReading.{end_token};
ghost use Rattle.surface.specs.Text.{text};
ghost use Rattle.surface.specs.Reading.{opening, closing, atom, word, natural, name, declaration_kind};
ghost use Rattle.expects.specs.Expects.{Reads, Begins, ReadsName, Names, Heads};
ghost use Rattle.expects.specs.declared.Format.{Format};
ghost use Rattle.expects.specs.Formats.{edition, OfSource, declared_name, ends, tested_name};
ghost use Rattle.expects.specs.FormOfWord.{told_form, form_at, kind_of, unnamed};
ghost use Rattle.expects.specs.Tokens.{TokenInside, LexedInside, IsParen, IsWordAt, OfKind};
ghost use Rattle.expects.specs.Terms.{LabelWith, LabelAlone, BeginsOn, BeginsWith, ClosesLeaf};
ghost use Rattle.expects.specs.Lines.{tag, is_version, ClosesVersion, SurfaceLine, ModuleLine};

use terms::Label;
use token::{Class, Classes, Refusal, Token, TokenKind};
use words::NameTest;

// The formats that are read: what their tokens are, which words are reserved and which have a form.
#[derive(Clone, Copy, Debug, PartialEq, Eq)]
pub enum Format {
    Surface01,
    Surface02,
    Core01,
}

// What is read: bytes of a format, with the table of byte classes.
#[derive(Clone, Copy)]
pub struct Input<'a> {
    pub bytes: &'a [u8],
    pub classes: &'a Classes,
    pub format: Format,
}

// What a term begins with, and where reading goes on: the whole of a term without arguments, or a frame.
#[derive(Clone, Copy, Debug, PartialEq, Eq)]
pub enum TermStart {
    Leaf(Label, usize),
    Frame(Label, usize),
}

// The format, the module's name, and where reading goes on.
#[derive(Clone, Copy, Debug, PartialEq, Eq)]
pub struct ModuleHead {
    pub format: Format,
    pub name: Token,
    pub next: usize,
}

// How a form is written: WORD, (WORD NAME), (WORD NUMERAL), (WORD NAME T .. T), (WORD T .. T).
#[derive(Clone, Copy, Debug, PartialEq, Eq)]
pub enum Shape {
    Alone,
    WithName,
    WithNumeral,
    Binding,
    Plain,
}

// The form of a word that has one.
#[derive(Clone, Copy, Debug, PartialEq, Eq)]
pub struct FormOfWord {
    pub kind: u32,
    pub shape: Shape,
}

impl Format {
    // Whether a word is reserved. Core text reserves none, and reads none as an identifier.
    fn is_reserved(self, w: &[u8]) -> bool
        ensures { result ≡ (edition self).reserved w.now }
    {
        match self {
            Format::Surface01 => words::is_reserved(w),
            Format::Surface02 => words::is_reserved(w) || words::same_bytes(w, b"arrow"),
            Format::Core01 => false,
        }
    }

    // Whether an atom is a name, with the format's reserved words.
    fn name_test(self, w: &[u8]) -> NameTest
        ensures { result ≡ tested_name (edition self) w.now }
    {
        if self.is_reserved(w) {
            return NameTest::Reserved;
        }
        if words::is_identifier(w) {
            return NameTest::Name;
        }
        NameTest::NotIdentifier
    }

    // Whether a token ends the declarations.
    pub fn is_ending(self, kind: TokenKind) -> bool
        ensures { result ≡ ends self kind }
    {
        match self {
            Format::Core01 => kind == TokenKind::RParen,
            _ => kind == TokenKind::Eof,
        }
    }

    // The form of a word: one search of the words for all formats. It is put in the place of its calls, for the speed of the frame reader.
    #[inline(always)]
    pub fn form_of_word(self, w: &[u8]) -> Option<FormOfWord>
        ensures { result ≡ told_form (form_of_word w.now (edition self).forms) }
    {
        let form = surface_form(w);
        match self {
            Format::Surface01 => form,
            Format::Surface02 => arrow_form(w, form),
            Format::Core01 => core_form(w, form),
        }
    }
}

// A token that was read, which must be of the wanted kind.
fn expect_kind(t: Token, wanted: TokenKind) -> Result<Token, Refusal>
    ensures { OfKind (Ok t) wanted result }
{
    if t.kind == wanted {
        return Ok(t);
    }
    Err(Refusal::at(Class::Malformed, t.start))
}

// The kind of a declaration's word, 0 for any other word.
pub fn declaration_kind(w: &[u8]) -> u32
    ensures { result ≡ declaration_kind w.now }
{
    let k = words::word_index(w) as u32;
    // postulate transparent opaque
    if k < 3 {
        return 0;
    }
    if 5 < k {
        return 0;
    }
    k - 2
}

// The kind of the form of word k: `ref` is word 6, and the words behind it stand in the order of their kinds.
fn kind_at(k: u32) -> u32
    requires { (6 ≤ k) × (k < 28) }
    ensures { result ≡ kind_of (form_at k) }
{
    if k == 6 { 24 } else { k - 4 }
}

// How the forms of the words from `ref` on are written: octal digits, the last one for `ref`. A match on the word becomes jumps, which are
// slower, and an array would be copied where it is read.
const SHAPES: u64 = 0o1_101_101_000_000_404_432;

// The form of word k.
fn form_at(k: u32) -> Option<FormOfWord>
    requires { k < 28 }
    ensures { result ≡ form_at k }
{
    if k < 6 {
        return None;
    }
    let kind = kind_at(k);
    let digit = (SHAPES >> (3 * (k as u64 - 6))) % 8;
    let shape = match digit {
        1 => Shape::Alone,
        2 => Shape::WithName,
        3 => Shape::WithNumeral,
        4 => Shape::Binding,
        _ => Shape::Plain,
    };
    Some(FormOfWord { kind, shape })
}

// The form of a word of surface 0 1.
pub fn surface_form(w: &[u8]) -> Option<FormOfWord>
    ensures { result ≡ told_form (form_of_word w.now forms) }
{
    form_at(words::word_index(w) as u32)
}

// A form where no name is written, neither a reference's nor a binder's.
fn unnamed(form: FormOfWord) -> Option<FormOfWord>
    ensures { result ≡ unnamed form }
{
    match form.shape {
        Shape::WithName => None,
        Shape::Binding => Some(FormOfWord {
            shape: Shape::Plain,
            ..form
        }),
        _ => Some(form),
    }
}

// The form of a word of core text, given its form in surface 0 1.
pub fn core_form(w: &[u8], form: Option<FormOfWord>) -> Option<FormOfWord>
    requires { form ≡ told_form (form_of_word w.now forms) }
    ensures { result ≡ told_form (form_of_word w.now text_forms) }
{
    if words::same_bytes(w, b"var") {
        return Some(FormOfWord {
            kind: 1,
            shape: Shape::WithNumeral,
        });
    }
    if words::same_bytes(w, b"global") {
        return Some(FormOfWord {
            kind: 2,
            shape: Shape::WithNumeral,
        });
    }
    unnamed(form?)
}

// The form of a word of surface 0 2, given its form in surface 0 1.
pub fn arrow_form(w: &[u8], form: Option<FormOfWord>) -> Option<FormOfWord>
    requires { form ≡ told_form (form_of_word w.now forms) }
    ensures { result ≡ told_form (form_of_word w.now forms_0_2) }
{
    if words::same_bytes(w, b"arrow") {
        return Some(FormOfWord {
            kind: 25,
            shape: Shape::Plain,
        });
    }
    form
}

// An offset or a length as a word of a row or a record: itself, in a source of at most 4294967295 bytes.
pub fn narrow(n: usize) -> u32
    ensures { n < 4294967296 → result ≡ n }
{
    (n % 4294967296) as u32
}

// The label of a term of a kind, with its name, numeral or binder x.
pub fn label_with(kind: u32, x: Token, offset: usize) -> Label
    requires { x.start ≤ x.end }
    ensures { LabelWith kind x offset result }
{
    Label {
        kind: kind,
        start: narrow(x.start),
        length: narrow(x.end - x.start),
        offset: narrow(offset),
    }
}

// The same where the form has no such atom.
pub fn label_alone(kind: u32, offset: usize) -> Label
    ensures { LabelAlone kind offset result }
{
    Label {
        kind: kind,
        start: 0,
        length: 0,
        offset: narrow(offset),
    }
}

// The term of a word t that stands without a parenthesis. Such words are the same in all formats.
pub fn begin_bare(s: &[u8], t: Token) -> Result<TermStart, Refusal>
    requires { TokenInside (length s.now) t }
    ensures { (f : Format) → BeginsOn (edition f) s.now t TokenKind.Atom result }
{
    let unknown = Refusal::at(Class::Malformed, t.start);
    let Some(FormOfWord { kind, shape }) = surface_form(&s[t.start..t.end]) else {
        return Err(unknown);
    };
    match shape {
        Shape::Alone => Ok(TermStart::Leaf(label_alone(kind, t.start), t.end)),
        _ => Err(unknown),
    }
}

// Whether a version is 0 and the numeral w, by its bytes.
pub fn is_version(s: &[u8], major: Token, minor: Token, w: &[u8]) -> bool
    requires major { TokenInside (length s.now) major }
    requires minor { TokenInside (length s.now) minor }
    ensures { result ≡ is_version s.now major minor w.now }
{
    words::same_bytes(&s[major.start..major.end], b"0")
        && words::same_bytes(&s[minor.start..minor.end], w)
}

impl<'a> Input<'a> {
    // The bytes of a token.
    fn text(&self, t: Token) -> &'a [u8]
        requires { TokenInside (length self.now.bytes.now) t }
        ensures { result.now ≡ text self.now.bytes.now t }
    {
        &self.bytes[t.start..t.end]
    }

    // The next token of the format.
    pub fn lex(&self, at: usize) -> Result<Token, Refusal>
        ensures { result ≡ (edition self.now.format).tokens self.now.bytes.now at }
    {
        match self.format {
            Format::Core01 => core_token::next_core_token(self.bytes, at),
            _ => token::next_token_by(self.bytes, self.classes, at),
        }
    }

    // The parenthesis of a kind, where it stands at its place: told there, before layout is looked for.
    fn paren_at(&self, at: usize, byte: u8, kind: TokenKind) -> Option<Token>
        requires { IsParen byte kind }
        ensures { IfSome result (λ t. (edition self.now.format).tokens self.now.bytes.now at ≡ Ok t) }
    {
        if at < self.bytes.len() && self.bytes[at] == byte {
            return Some(Token {
                kind,
                start: at,
                end: at + 1,
            });
        }
        None
    }

    fn open_at(&self, at: usize) -> Result<Token, Refusal>
        ensures { result ≡ (edition self.now.format).tokens self.now.bytes.now at }
    {
        match self.paren_at(at, b'(', TokenKind::LParen) {
            Some(t) => Ok(t),
            None => self.lex(at),
        }
    }

    fn close_at(&self, at: usize) -> Result<Token, Refusal>
        ensures { result ≡ (edition self.now.format).tokens self.now.bytes.now at }
    {
        match self.paren_at(at, b')', TokenKind::RParen) {
            Some(t) => Ok(t),
            None => self.lex(at),
        }
    }

    // One space, as often stands between two tokens, is passed before the token is looked at.
    fn behind_space(&self, at: usize) -> usize
        ensures { (f : Format) → (edition f).tokens self.now.bytes.now result ≡ (edition f).tokens self.now.bytes.now at }
    {
        if at < self.bytes.len() && self.bytes[at] == b' ' {
            return at + 1;
        }
        at
    }

    pub fn next_token(&self, at: usize) -> Result<Token, Refusal>
        ensures { result ≡ (edition self.now.format).tokens self.now.bytes.now at }
    {
        self.open_at(self.behind_space(at))
    }

    pub fn expect_lparen(&self, at: usize) -> Result<Token, Refusal>
        ensures { Reads (opening ((edition self.now.format).tokens self.now.bytes.now)) at result }
    {
        expect_kind(self.open_at(at)?, TokenKind::LParen)
    }

    pub fn expect_rparen(&self, at: usize) -> Result<Token, Refusal>
        ensures { Reads (closing ((edition self.now.format).tokens self.now.bytes.now)) at result }
    {
        expect_kind(self.close_at(at)?, TokenKind::RParen)
    }

    // The end of a core text.
    pub fn expect_end(&self, at: usize) -> Result<Token, Refusal>
        ensures { Reads (end_token ((edition self.now.format).tokens self.now.bytes.now)) at result }
    {
        expect_kind(self.lex(at)?, TokenKind::Eof)
    }

    // The next token, which must be an atom.
    fn lexed_atom(&self, at: usize) -> Result<Token, Refusal>
        ensures { Reads (atom ((edition self.now.format).tokens self.now.bytes.now)) at result }
    {
        expect_kind(self.lex(at)?, TokenKind::Atom)
    }

    // Behind the layout from `at` on, up to a comment. In core text nothing is passed.
    fn blank_end(&self, at: usize) -> usize
        ensures { (edition self.now.format).tokens self.now.bytes.now result ≡ (edition self.now.format).tokens self.now.bytes.now at }
    {
        match self.format {
            Format::Core01 => at,
            _ => token::skip_blank(self.bytes, self.classes, at),
        }
    }

    // The end of an identifier of a source that starts at `start`; else `start`, as in core text.
    fn name_end(&self, start: usize) -> usize
        ensures { start < result → OfSource self.now.format × NameAt self.now.bytes.now start result }
    {
        match self.format {
            Format::Core01 => start,
            _ => token::name_end(self.bytes, self.classes, start),
        }
    }

    // The word that stands at its place, if it is an identifier of a source: told while its end is looked for.
    fn word_at(&self, at: usize) -> Option<Token>
        ensures { IfSome result (IsWordAt self.now.format self.now.bytes.now at) }
    {
        let end = self.name_end(at);
        if at < end {
            return Some(Token {
                kind: TokenKind::Atom,
                start: at,
                end,
            });
        }
        None
    }

    // The same as `lexed_atom`. It is put in the place of its calls, for the speed of both readers of terms.
    #[inline(always)]
    pub fn next_atom(&self, at: usize) -> Result<Token, Refusal>
        ensures { Reads (atom ((edition self.now.format).tokens self.now.bytes.now)) at result }
    {
        match self.word_at(at) {
            Some(t) => Ok(t),
            None => self.lexed_atom(at),
        }
    }

    pub fn expect_atom(&self, at: usize, expected: &[u8]) -> Result<Token, Refusal>
        ensures { Reads (word ((edition self.now.format).tokens self.now.bytes.now) self.now.bytes.now expected.now) at result }
    {
        let t = self.next_atom(at)?;
        if words::same_bytes(self.text(t), expected) {
            return Ok(t);
        }
        Err(Refusal::at(Class::Malformed, t.start))
    }

    // The parenthesis and the word that a line of the head begins with.
    pub fn expect_tag(&self, at: usize, expected: &[u8]) -> Result<Token, Refusal>
        ensures { Reads (tag ((edition self.now.format).tokens self.now.bytes.now) self.now.bytes.now expected.now) at result }
    {
        let lparen = self.expect_lparen(at)?;
        self.expect_atom(lparen.end, expected)
    }

    pub fn parse_natural(&self, at: usize) -> Result<Token, Refusal>
        ensures { Reads (natural ((edition self.now.format).tokens self.now.bytes.now) self.now.bytes.now) at result }
    {
        let t = self.lexed_atom(at)?;
        if words::is_numeral(self.text(t)) {
            return Ok(t);
        }
        Err(Refusal::at(Class::Malformed, t.start))
    }

    // An atom that is tested for a name behind its end.
    fn tested_identifier(&self, at: usize) -> Result<Token, Refusal>
        ensures { Reads (name (edition self.now.format) self.now.bytes.now) at result }
    {
        let t = self.lexed_atom(at)?;
        match self.format.name_test(self.text(t)) {
            NameTest::Name => Ok(t),
            NameTest::Reserved => Err(Refusal::at(Class::ReservedName, t.start)),
            NameTest::NotIdentifier => Err(Refusal::at(Class::Malformed, t.start)),
        }
    }

    // Most identifiers are told while their end is looked for.
    pub fn parse_identifier(&self, at: usize) -> Result<Token, Refusal>
        ensures { Reads (name (edition self.now.format) self.now.bytes.now) at result }
    {
        let start = self.blank_end(at);
        match self.word_at(start) {
            Some(t) if !self.format.is_reserved(self.text(t)) => Ok(t),
            _ => self.tested_identifier(start),
        }
    }

    // The name of a declaration of a core text: a string, of which the bytes between the quotes are kept.
    fn string_name(&self, at: usize) -> Result<(Token, usize), Refusal>
        ensures { ReadsName (declared_name Format.Core01 self.now.bytes.now) at result }
    {
        let t = core_token::next_core_token(self.bytes, at)?;
        if t.kind != TokenKind::String {
            return Err(Refusal::at(Class::Malformed, t.start));
        }
        let inside = Token {
            kind: TokenKind::String,
            start: t.start + 1,
            end: t.end - 1,
        };
        Ok((inside, t.end))
    }

    // The name of a declaration, and where reading goes on behind it.
    pub fn parse_name(&self, at: usize) -> Result<(Token, usize), Refusal>
        ensures { Names self.now.format self.now.bytes.now at result }
    {
        match self.format {
            Format::Core01 => self.string_name(at),
            _ => {
                let t = self.parse_identifier(at)?;
                Ok((t, t.end))
            }
        }
    }

    pub fn begin_bare(&self, t: Token) -> Result<TermStart, Refusal>
        requires { TokenInside (length self.now.bytes.now) t }
        ensures { (f : Format) → BeginsOn (edition f) self.now.bytes.now t TokenKind.Atom result }
    {
        begin_bare(self.bytes, t)
    }

    // The term of a kind with the atom that was read, to its closing parenthesis.
    pub fn close_leaf(
        &self,
        kind: u32,
        offset: usize,
        atom: Result<Token, Refusal>,
    ) -> Result<TermStart, Refusal>
        requires { LexedInside (length self.now.bytes.now) atom }
        ensures { ClosesLeaf (edition self.now.format) self.now.bytes.now kind offset atom result }
    {
        let t = atom?;
        let close = self.expect_rparen(t.end)?;
        Ok(TermStart::Leaf(label_with(kind, t, offset), close.end))
    }

    // The beginning of a term behind its parenthesis and its word. Both readers of terms begin with it, and each has it in the place of its call.
    #[inline(always)]
    fn begin_tagged(&self, lparen: Token, word: Token) -> Result<TermStart, Refusal>
        requires { TokenInside (length self.now.bytes.now) word }
        ensures { BeginsWith (edition self.now.format) self.now.bytes.now lparen word result }
    {
        let offset = lparen.start;
        let unknown = Refusal::at(Class::Malformed, word.start);
        let Some(FormOfWord { kind, shape }) = self.format.form_of_word(self.text(word)) else {
            return Err(unknown);
        };
        match shape {
            Shape::Alone => Err(unknown),
            Shape::WithName => self.close_leaf(kind, offset, self.parse_identifier(word.end)),
            Shape::WithNumeral => self.close_leaf(kind, offset, self.parse_natural(word.end)),
            // A binder is read and tested before the frame is opened.
            Shape::Binding => {
                let binder = self.parse_identifier(word.end)?;
                Ok(TermStart::Frame(label_with(kind, binder, offset), binder.end))
            }
            Shape::Plain => Ok(TermStart::Frame(label_alone(kind, offset), word.end)),
        }
    }

    // The beginning of a term behind its parenthesis.
    #[inline(always)]
    pub fn begin_form(&self, lparen: Token) -> Result<TermStart, Refusal>
        ensures { BeginsOn (edition self.now.format) self.now.bytes.now lparen TokenKind.LParen result }
    {
        let t = self.next_atom(lparen.end)?;
        self.begin_tagged(lparen, t)
    }

    // The token that a term begins with: a parenthesis at its place, or a word that is told while its end is looked for, or any other.
    fn term_token(&self, at: usize) -> Result<Token, Refusal>
        ensures { result ≡ (edition self.now.format).tokens self.now.bytes.now at }
    {
        if let Some(t) = self.paren_at(at, b'(', TokenKind::LParen) {
            return Ok(t);
        }
        match self.word_at(at) {
            Some(t) => Ok(t),
            None => self.lex(at),
        }
    }

    // What a term begins with: all of a term without arguments, or a form with its name.
    pub fn begin_term(&self, at: usize) -> Result<TermStart, Refusal>
        ensures { Begins (edition self.now.format) self.now.bytes.now at result }
    {
        let start = self.blank_end(self.behind_space(at));
        let t = self.term_token(start)?;
        match t.kind {
            TokenKind::LParen => self.begin_form(t),
            TokenKind::Atom => self.begin_bare(t),
            _ => Err(Refusal::at(Class::Malformed, t.start)),
        }
    }

    pub fn is_version(&self, major: Token, minor: Token, w: &[u8]) -> bool
        requires major { TokenInside (length self.now.bytes.now) major }
        requires minor { TokenInside (length self.now.bytes.now) minor }
        ensures { result ≡ is_version self.now.bytes.now major minor w.now }
    {
        is_version(self.bytes, major, minor, w)
    }
}

// The rest of the surface line behind its numerals: the closing parenthesis, and only then the version. What is known then is the format of
// the source, and where reading goes on.
fn close_version(input: &Input, major: Token, minor: Token) -> Result<(Format, usize), Refusal>
    requires major { TokenInside (length input.now.bytes.now) major }
    requires minor { TokenInside (length input.now.bytes.now) minor }
    ensures { OfSource input.now.format → ClosesVersion input.now.bytes.now major minor result }
{
    let close = input.expect_rparen(minor.end)?;
    if input.is_version(major, minor, b"1") {
        return Ok((Format::Surface01, close.end));
    }
    if input.is_version(major, minor, b"2") {
        return Ok((Format::Surface02, close.end));
    }
    Err(Refusal::nowhere(Class::Version))
}

// `(surface 0 1)` or `(surface 0 2)`
fn surface_line(input: &Input) -> Result<(Format, usize), Refusal>
    ensures { OfSource input.now.format → SurfaceLine input.now.bytes.now result }
{
    let w = input.expect_tag(0, b"surface")?;
    let major = input.parse_natural(w.end)?;
    let minor = input.parse_natural(major.end)?;
    close_version(input, major, minor)
}

// `(module NAME)`
fn module_line(input: &Input, at: usize) -> Result<ModuleHead, Refusal>
    ensures { OfSource input.now.format → ModuleLine input.now.bytes.now input.now.format at result }
{
    let w = input.expect_tag(at, b"module")?;
    let name = input.parse_identifier(w.end)?;
    let close = input.expect_rparen(name.end)?;
    Ok(ModuleHead {
        format: input.format,
        name,
        next: close.end,
    })
}

pub fn read_head(bytes: &[u8], classes: &Classes) -> Result<ModuleHead, Refusal>
    ensures { Heads bytes.now result }
{
    let input = Input {
        bytes,
        classes,
        format: Format::Surface01,
    };
    let (format, next) = surface_line(&input)?;
    module_line(&Input { format, ..input }, next)
}
