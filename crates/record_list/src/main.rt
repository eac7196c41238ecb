// Asks of two sources and two core texts with the declaration list lent as a slice of records, and prints the answer and the first three
// records of the list: 01's input of the listing, which is loaded, read and asked about a dependence and about what binds its references,
// whose core text is printed and read again; a source that is refused; and a core text that is not what would be printed for it.
#![tactic(auto)]

ghost use Rattle.std.specs.Prelude.{◌≡◌};
ghost use Rattle.record_list.specs.Left.{Left, used};

use binding::Binder;
use record_loader::{Question, Reply};
use records::Declaration;
use std::io;
use surface::Loaded;
use token::Refusal;

// A record with something in every field, as a former call may have left it.
fn used_record() -> Declaration
    ensures { result ≡ used }
{
    Declaration {
        kind: 9,
        name_start: 9,
        name_length: 9,
        type_row: 9,
        body_row: 9,
    }
}

// The list of 256 records is a local array, which is lent to `ask_records`; then its words are handed out.
fn ask_list(
    question: Question,
    s: &[u8],
    surface: &mut [u32],
    core: &mut [u32],
    work: &mut [u32],
    words: &mut [u32],
    text: &mut [u8],
) -> Reply
    ensures { Left s.now question surface.old core.old work.old words.old text.old result surface.new core.new work.new words.new text.new }
{
    let mut list = [used_record(); 256];
    let reply = record_loader::ask_records(question, s, surface, core, &mut list, work, text);
    records::write_words(&list, words);
    reply
}

fn print_number(rt: &impl Print, n: u64) -> io::Result<()> {
    print!(rt; " {n}")
}

fn print_refusal(rt: &impl Print, refusal: Refusal) -> io::Result<()> {
    print!(rt; "refused")?;
    print_number(rt, refusal.class.number() as u64)?;
    let place = refusal.place;
    if let Some(at) = place {
        print!(rt; " at")?;
        print_number(rt, at as u64)?;
    }
    Ok(())
}

fn print_counts(rt: &impl Print, rows: usize, declarations: usize) -> io::Result<()> {
    print_number(rt, rows as u64)?;
    print_number(rt, declarations as u64)
}

// What was loaded or read, by a word for it.
fn print_tables(rt: &impl Print, word: &str, answer: Result<Loaded, Refusal>) -> io::Result<()> {
    match answer {
        Ok(Loaded { rows, declarations }) => {
            print!(rt; "{word}")?;
            print_counts(rt, rows, declarations)
        }
        Err(refusal) => print_refusal(rt, refusal),
    }
}

fn print_dependence(rt: &impl Print, answer: Result<Option<usize>, Refusal>) -> io::Result<()> {
    match answer {
        Ok(Some(row)) => {
            print!(rt; "yes")?;
            print_number(rt, row as u64)
        }
        Ok(None) => print!(rt; "no"),
        Err(refusal) => print_refusal(rt, refusal),
    }
}

fn print_printed(rt: &impl Print, answer: Result<usize, Refusal>) -> io::Result<()> {
    match answer {
        Ok(length) => {
            print!(rt; "printed")?;
            print_number(rt, length as u64)
        }
        Err(refusal) => print_refusal(rt, refusal),
    }
}

fn print_bound(rt: &impl Print, answer: Result<Binder, Refusal>) -> io::Result<()> {
    match answer {
        Ok(Binder::Local { count, row }) => {
            print!(rt; "var")?;
            print_counts(rt, count, row)
        }
        Ok(Binder::Global { place }) => {
            print!(rt; "global")?;
            print_number(rt, place as u64)
        }
        Err(refusal) => print_refusal(rt, refusal),
    }
}

fn print_reply(rt: &impl Print, reply: Reply) -> io::Result<()> {
    match reply {
        Reply::Loaded(answer) => print_tables(rt, "loaded", answer)?,
        Reply::Parsed(answer) => print_tables(rt, "read", answer)?,
        Reply::Depends(answer) => print_dependence(rt, answer)?,
        Reply::Printed(answer) => print_printed(rt, answer)?,
        Reply::Read(answer) => print_tables(rt, "text read", answer)?,
        Reply::Bound(answer) => print_bound(rt, answer)?,
    }
    println!(rt)
}

fn print_record(rt: &impl Print, words: &[u32], k: usize) -> io::Result<()> {
    let d = records::record_at(words, k);
    print!(rt; "record")?;
    print_number(rt, d.kind as u64)?;
    print_number(rt, d.name_start as u64)?;
    print_number(rt, d.name_length as u64)?;
    print_number(rt, d.type_row as u64)?;
    print_number(rt, d.body_row as u64)?;
    println!(rt)
}

// How many bytes were printed.
fn printed_length(reply: Reply) -> usize {
    if let Reply::Printed(Ok(length)) = reply {
        length
    } else {
        0
    }
}

// The beginning of a buffer.
fn front(text: &[u8], n: usize) -> &[u8] {
    if n < text.len() {
        return &text[..n];
    }
    text
}

fn print_asked(
    rt: &impl Print,
    question: Question,
    s: &[u8],
    text: &mut [u8],
) -> io::Result<Reply> {
    let mut surface = [0u32; 8192];
    let mut core = [0u32; 8192];
    let mut work = [0u32; 16384];
    let mut words = [0u32; 1280];
    let reply = ask_list(
        question,
        s,
        &mut surface,
        &mut core,
        &mut work,
        &mut words,
        text,
    );
    print_reply(rt, reply)?;
    print_record(rt, &words, 0)?;
    print_record(rt, &words, 1)?;
    print_record(rt, &words, 2)?;
    Ok(reply)
}

fn print_source(rt: &impl Print, s: &[u8], text: &mut [u8]) -> io::Result<()> {
    print_asked(rt, Question::Load, s, text)?;
    print_asked(rt, Question::Parse, s, text)?;
    print_asked(rt, Question::Depends(1, 0), s, text)?;
    print_asked(rt, Question::Depends(0, 1), s, text)?;
    print_asked(rt, Question::Binder(1), s, text)?;
    print_asked(rt, Question::Binder(2), s, text)?;
    print_asked(rt, Question::Binder(3), s, text)?;
    Ok(())
}

fn print_core(rt: &impl Print, t: &[u8], text: &mut [u8]) -> io::Result<()> {
    print_asked(rt, Question::ReadCore, t, text)?;
    print_asked(rt, Question::ReadCanonical, t, text)?;
    Ok(())
}

fn main(rt: HostRuntime) -> io::Result<()> {
    let mut buffer = [0u8; 256];
    let mut short = [0u8; 16];
    let listed = b"(surface 0 1)(module m)(postulate x nat)(postulate y (pi x (ref x) (ref x)))";
    print_source(&rt, listed, &mut short)?;
    print_asked(&rt, Question::Print, listed, &mut short)?;
    let reply = print_asked(&rt, Question::Print, listed, &mut buffer)?;
    let length = printed_length(reply);
    let printed = front(&buffer, length);
    rt.write_all(printed)?;
    print_core(&rt, printed, &mut short)?;
    let unknown = b"(surface 0 1)(module m)(postulate a (ref q))";
    print_asked(&rt, Question::Load, unknown, &mut short)?;
    print_asked(&rt, Question::Parse, unknown, &mut short)?;
    print_asked(&rt, Question::Depends(0, 0), unknown, &mut short)?;
    print_asked(&rt, Question::Binder(0), unknown, &mut short)?;
    print_asked(&rt, Question::Print, unknown, &mut short)?;
    let spaced =
        b"(hott-core (format 0 1) (theory \"mltt-core\" 0 1) (declarations (postulate \"x\"  nat)))";
    print_core(&rt, spaced, &mut short)
}
