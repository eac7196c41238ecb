// Every question to a source or a core text with the declaration list lent as a slice of records: one entry point, over a
// function with plain parameters that goes by the question. Each further question is a case more in it, and in specs/Replies.antt.
#![tactic(auto)]

ghost use Rattle.std.specs.Prelude.{◌≤◌, length};
ghost use Rattle.surface.specs.Tables.{tables};
ghost use Rattle.record_loader.specs.Recorded.{list_words, front};
ghost use Rattle.record_loader.specs.Replies.{Replies};

use binding::Binder;
use records::Declaration;
use surface::Loaded;
use token::Refusal;

#[derive(Clone, Copy)]
pub enum Question {
    Load,
    Parse,
    Depends(usize, usize),
    Print,
    ReadCore,
    ReadCanonical,
    Binder(usize),
}

#[derive(Clone, Copy)]
pub enum Reply {
    Loaded(Result<Loaded, Refusal>),
    Parsed(Result<Loaded, Refusal>),
    Depends(Result<Option<usize>, Refusal>),
    Printed(Result<usize, Refusal>),
    Read(Result<Loaded, Refusal>),
    Bound(Result<Binder, Refusal>),
}

// Asks with as many words for the declarations as a list of so many records takes.
fn ask_words(
    question: Question,
    s: &[u8],
    surface: &mut [u32],
    core: &mut [u32],
    words: &mut [u32],
    count: usize,
    work: &mut [u32],
    text: &mut [u8],
) -> Reply
    ensures { length words.old ≤ 65535
        → Replies s.now question (tables surface.old core.old (front count words.old words.old) work.old) text.old
        result (tables surface.new core.new (front count words.old words.new) work.new) text.new }
{
    let limit = records::word_limit(count, words.len());
    match question {
        Question::Load => {
            let a = loader::load(s, surface, core, &mut words[..limit], work);
            Reply::Loaded(a)
        }
        Question::Parse => {
            let m = loader::parse_surface(s, surface, &mut words[..limit], work);
            Reply::Parsed(m)
        }
        Question::Depends(i, j) => {
            let d = depends::depends(s, i, j, surface, core, &mut words[..limit], work);
            Reply::Depends(d)
        }
        Question::Print => {
            let p = printer::print(s, surface, core, &mut words[..limit], work, text);
            Reply::Printed(p)
        }
        Question::ReadCore => {
            let a = core_loader::read_core(s, core, &mut words[..limit], work);
            Reply::Read(a)
        }
        Question::ReadCanonical => {
            let a = core_loader::read_canonical(s, core, &mut words[..limit], work);
            Reply::Read(a)
        }
        Question::Binder(row) => {
            let b = binder::binder(s, row, surface, core, &mut words[..limit], work);
            Reply::Bound(b)
        }
    }
}

// Asks with a list of records. The words of the declarations live in a local array while the core runs: it has those of 13,107
// records, which no source of 65,535 bytes exceeds. A core text may be longer and have more declarations: for it the list counts as
// one of 13,107 records where it is longer, and the records behind them are 0 afterwards.
pub fn ask_records(
    question: Question,
    s: &[u8],
    surface: &mut [u32],
    core: &mut [u32],
    declarations: &mut [Declaration],
    work: &mut [u32],
    text: &mut [u8],
) -> Reply
    ensures { Replies s.now question (tables surface.old core.old (list_words declarations.old) work.old) text.old result (tables surface.new core.new (list_words declarations.new) work.new) text.new }
{
    let mut words = [0u32; 65535];
    let reply = ask_words(
        question,
        s,
        surface,
        core,
        &mut words,
        declarations.len(),
        work,
        text,
    );
    records::write_records(&words, declarations);
    reply
}
