// An answer as plain numbers, and how the library's functions tell them.
#![tactic(auto)]

ghost use Rattle.std.specs.Prelude.{◌≡◌, [], ◌∷◌, ◌++◌};
ghost use Rattle.dependence.specs.Asks.{report_dependence};
ghost use Rattle.surface.specs.Reports.{offsets, report_refusal, report, token_number, report_token};
ghost use Rattle.loader.specs.Parsed.{report_read};
ghost use Rattle.binding.specs.Binds.{report_binding};
ghost use Rattle.least_storage.specs.Storage.{report_storage};
ghost use Rattle.module_name.specs.ModuleName.{report_module_name};
ghost use Rattle.printing.specs.PrintCall.{report_printed};
ghost use Rattle.same.specs.Comparison.{report_comparison};
ghost use Rattle.reports.specs.Numbers.{numbers, words, told, report_listed};

use binding::Binder;
use least_storage::Needs;
use lister::Listed;
use module_name::Span;
use same::Unloaded;
use surface::Loaded;
use token::{Refusal, Token, TokenKind};

// What a call answers; then how many values follow, and these, and 0 behind them.
#[derive(Clone, Copy)]
pub struct Numbers {
    pub number: u8,
    pub count: u64,
    pub first: u64,
    pub second: u64,
    pub third: u64,
}

// A refusal by its class's number, which may be any.
pub fn report_refused(number: u8, place: Option<usize>) -> Numbers
    ensures { result ≡ numbers (record { number = number; values = offsets place }) }
{
    match place {
        Some(at) => Numbers {
            number,
            count: 1,
            first: at as u64,
            second: 0,
            third: 0,
        },
        None => Numbers {
            number,
            count: 0,
            first: 0,
            second: 0,
            third: 0,
        },
    }
}

fn report_refusal(refusal: Refusal) -> Numbers
    ensures { result ≡ numbers (report_refusal refusal) }
{
    report_refused(refusal.class.number(), refusal.place)
}

fn report_none() -> Numbers
    ensures { result ≡ numbers (record { number = 0; values = [] }) }
{
    Numbers {
        number: 0,
        count: 0,
        first: 0,
        second: 0,
        third: 0,
    }
}

fn report_one(first: usize) -> Numbers
    ensures { result ≡ numbers (record { number = 0; values = first ∷ [] }) }
{
    Numbers {
        number: 0,
        count: 1,
        first: first as u64,
        second: 0,
        third: 0,
    }
}

fn report_two(first: usize, second: usize) -> Numbers
    ensures { result ≡ numbers (record { number = 0; values = first ∷ second ∷ [] }) }
{
    Numbers {
        number: 0,
        count: 2,
        first: first as u64,
        second: second as u64,
        third: 0,
    }
}

pub fn report_loaded(answer: Result<Loaded, Refusal>) -> Numbers
    ensures { result ≡ numbers (report answer) }
{
    match answer {
        Ok(Loaded { rows, declarations }) => report_two(rows, declarations),
        Err(refusal) => report_refusal(refusal),
    }
}

pub fn report_read(answer: Result<Loaded, Refusal>) -> Numbers
    ensures { result ≡ numbers (report_read answer) }
{
    match answer {
        Ok(read) => report_two(read.rows, read.declarations),
        Err(refusal) => report_refusal(refusal),
    }
}

// Printing: the length of the text.
pub fn report_printed(answer: Result<usize, Refusal>) -> Numbers
    ensures { result ≡ numbers (report_printed answer) }
{
    match answer {
        Ok(length) => report_one(length),
        Err(refusal) => report_refusal(refusal),
    }
}

// Dependence: the row of a yes, and nothing for a no.
pub fn report_dependence(answer: Result<Option<usize>, Refusal>) -> Numbers
    ensures { result ≡ numbers (report_dependence answer) }
{
    match answer {
        Ok(Some(row)) => report_one(row),
        Ok(None) => report_none(),
        Err(refusal) => report_refusal(refusal),
    }
}

// What binds a reference: the count and the row for a local, the place for a global.
pub fn report_binding(answer: Result<Binder, Refusal>) -> Numbers
    ensures { result ≡ numbers (report_binding answer) }
{
    match answer {
        Ok(Binder::Local { count, row }) => report_two(count, row),
        Ok(Binder::Global { place }) => report_one(place),
        Err(refusal) => report_refusal(refusal),
    }
}

// The module's name: where it starts, and its length.
pub fn report_module_name(answer: Result<Span, Refusal>) -> Numbers
    ensures { result ≡ numbers (report_module_name answer) }
{
    match answer {
        Ok(name) => report_two(name.start, name.length),
        Err(refusal) => report_refusal(refusal),
    }
}

// What a source needs: rows, declarations, open frames.
pub fn report_storage(answer: Result<Needs, Refusal>) -> Numbers
    ensures { result ≡ numbers (report_storage answer) }
{
    match answer {
        Ok(needs) => Numbers {
            number: 0,
            count: 3,
            first: needs.rows as u64,
            second: needs.declarations as u64,
            third: needs.frames as u64,
        },
        Err(refusal) => report_refusal(refusal),
    }
}

// Which of two sources is refused, and the refusal's offset if it has one; by its class's number.
pub fn report_which(which: u64, number: u8, place: Option<usize>) -> Numbers
    ensures { result ≡ numbers (record { number = number; values = which ∷ offsets place }) }
{
    match place {
        Some(at) => Numbers {
            number,
            count: 2,
            first: which,
            second: at as u64,
            third: 0,
        },
        None => Numbers {
            number,
            count: 1,
            first: which,
            second: 0,
            third: 0,
        },
    }
}

// The same core: the place where the two part, or which source is refused.
pub fn report_comparison(answer: Result<Option<usize>, Unloaded>) -> Numbers
    ensures { result ≡ numbers (report_comparison answer) }
{
    match answer {
        Ok(None) => report_none(),
        Ok(Some(declaration)) => report_one(declaration),
        Err(Unloaded::First(refusal)) => report_which(1, refusal.class.number(), refusal.place),
        Err(Unloaded::Second(refusal)) => report_which(2, refusal.class.number(), refusal.place),
    }
}

// A refusal by its class's number, and the length of its line.
pub fn report_refused_text(number: u8, place: Option<usize>, length: u64) -> Numbers
    ensures { result ≡ numbers (record { number = number; values = offsets place ++ (length ∷ []) }) }
{
    match place {
        Some(offset) => Numbers {
            number,
            count: 2,
            first: offset as u64,
            second: length,
            third: 0,
        },
        None => Numbers {
            number,
            count: 1,
            first: length,
            second: 0,
            third: 0,
        },
    }
}

// What loading tells, and then the text's length.
pub fn report_listed(listed: Listed) -> Numbers
    ensures { result ≡ numbers (report_listed listed) }
{
    let length = listed.length as u64;
    let answer = listed.answer;
    match answer {
        Ok(Loaded { rows, declarations }) => Numbers {
            number: 0,
            count: 3,
            first: rows as u64,
            second: declarations as u64,
            third: length,
        },
        Err(refusal) => report_refused_text(refusal.class.number(), refusal.place, length),
    }
}

fn token_number(kind: TokenKind) -> u64
    ensures { result ≡ token_number kind }
{
    match kind {
        TokenKind::LParen => 1,
        TokenKind::RParen => 2,
        TokenKind::Atom => 3,
        TokenKind::Eof => 4,
        TokenKind::String => 5,
    }
}

pub fn report_token(lexed: Result<Token, Refusal>) -> Numbers
    ensures { result ≡ numbers (report_token lexed) }
{
    match lexed {
        Ok(t) => {
            let kind = t.kind;
            Numbers {
                number: 0,
                count: 3,
                first: token_number(kind),
                second: t.start as u64,
                third: t.end as u64,
            }
        }
        Err(refusal) => report_refusal(refusal),
    }
}

// Three numbers at the beginning of a lent table, where there is room for them.
pub fn tell(answer: &mut [u64], numbers: Numbers) -> u8
    ensures value { result ≡ numbers.number }
    ensures answer_after { answer.new ≡ told 3 answer.old (words numbers) }
{
    if 3 <= answer.len() {
        answer[0] = numbers.count;
        answer[1] = numbers.first;
        answer[2] = numbers.second;
    }
    numbers.number
}

// All four of them.
pub fn tell_all(answer: &mut [u64], numbers: Numbers) -> u8
    ensures value { result ≡ numbers.number }
    ensures answer_after { answer.new ≡ told 4 answer.old (words numbers) }
{
    if 4 <= answer.len() {
        answer[0] = numbers.count;
        answer[1] = numbers.first;
        answer[2] = numbers.second;
        answer[3] = numbers.third;
    }
    numbers.number
}
