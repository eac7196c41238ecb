// The listing of document 01 for a source, with every table lent and the text written into a lent buffer: the core module that loading leaves,
// or the refusal.
#![tactic(auto)]

ghost use Rattle.std.specs.Prelude.{◌≡◌, length};
ghost use Rattle.text.specs.Text.{with_text, length_in};
ghost use Rattle.surface.specs.Tables.{tables};
ghost use Rattle.lister.specs.Lists.{text_of, Lists};

use reader::{Frames, Method};
use surface::Loaded;
use token::Refusal;

// What loading answers, and the length of the text.
#[derive(Clone, Copy)]
pub struct Listed {
    pub answer: Result<Loaded, Refusal>,
    pub length: usize,
}

// The text of an answer with the tables that loading left.
fn put_text(
    s: &[u8],
    core: &[u32],
    declarations: &[u32],
    answer: Result<Loaded, Refusal>,
    text: &mut [u8],
) -> usize
    ensures text_after { text.new ≡ with_text text.old (text_of s.now answer core.now declarations.now) }
    ensures value { result ≡ length_in text.old (length (text_of s.now answer core.now declarations.now)) }
{
    match answer {
        Ok(loaded) => lines::put_listing(
            s,
            core,
            declarations,
            loaded.rows,
            loaded.declarations,
            text,
        ),
        Err(refusal) => lines::put_refusal(refusal, text),
    }
}

// Loads a source by either reader and writes its listing from the beginning of the buffer on. A text that does not fit is cut, and its length is then told as
// one more than the buffer has.
pub fn list_by<M: Method>(
    s: &[u8],
    surface: &mut [u32],
    core: &mut [u32],
    declarations: &mut [u32],
    work: &mut [u32],
    text: &mut [u8],
) -> Listed
    ensures { Lists s.now (tables surface.old core.old declarations.old work.old) text.old result (tables surface.new core.new declarations.new work.new) text.new }
{
    let answer = loader::load_by::<M>(s, surface, core, declarations, work);
    let length = put_text(s, core, declarations, answer, text);
    Listed { answer, length }
}

// The same by the frame reader.
pub fn list(
    s: &[u8],
    surface: &mut [u32],
    core: &mut [u32],
    declarations: &mut [u32],
    work: &mut [u32],
    text: &mut [u8],
) -> Listed
    ensures { Lists s.now (tables surface.old core.old declarations.old work.old) text.old result (tables surface.new core.new declarations.new work.new) text.new }
{
    list_by::<Frames>(s, surface, core, declarations, work, text)
}
