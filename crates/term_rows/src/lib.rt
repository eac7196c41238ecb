// What both readers of terms share: the answer for a term, the bounds within which one is read, and the row of one that was read.
#![tactic(auto)]

ghost use Rattle.std.specs.Prelude.{◌≡◌, take};
ghost use Rattle.terms.specs.Forms.{holds_span_in};
ghost use Rattle.terms.specs.Rows.{row_holding};
ghost use Rattle.expects.specs.Formats.{edition};
ghost use Rattle.term_rows.specs.TermRows.{within};

use expects::Format;
use terms::Label;

// What the words of a row can count.
const LONGEST: usize = 4294967295;

// A term that was read: its row, how many rows are stored, where reading goes on, and how many frames were open at most.
#[derive(Clone, Copy, Debug, PartialEq, Eq)]
pub struct ReadTerm {
    pub row: u32,
    pub rows: usize,
    pub next: usize,
    pub frames: usize,
}

// The bounds that loading has tested before it reads; a call outside them reads nothing.
pub fn is_within(source: usize, at: usize, rows: usize) -> bool
    ensures { result ≡ within source at rows }
{
    source <= LONGEST && at <= source && rows <= at
}

// Whether a term of each kind has the start and length of an atom in its row.
fn holds_span(kind: u32, format: Format) -> bool
    ensures { result ≡ holds_span_in (edition format).forms kind }
{
    match format {
        Format::Core01 => rows::holds_numeral(kind),
        _ => rows::holds_span(kind),
    }
}

// The row of a term that was read.
pub fn term_row(label: Label, args: [u32; 6], len: u32, format: Format) -> [u32; 8]
    ensures { result ≡ row_holding (holds_span_in (edition format).forms) (record { label = label; children = take len args }) }
{
    let span = holds_span(label.kind, format);
    rows::row_words(label, span, args, len)
}
