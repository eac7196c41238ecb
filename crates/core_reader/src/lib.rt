// The reader of core texts: the head, the declarations by the reader of sources, and the end, into lent tables of rows and records.
// The port of `parse_module` in format/parser.rs. Document 02, Req 03.
#![tactic(auto)]

ghost use Rattle.std.specs.Prelude.{◌≡◌, ◌/◌, length};
ghost use Rattle.words.specs.Words.{ascii, same_bytes};
ghost use Rattle.surface.specs.Text.{text};
ghost use Rattle.expects.specs.declared.Format.{Format};
ghost use Rattle.expects.specs.Expects.{position_at};
ghost use Rattle.expects.specs.Tokens.{TokenInside};
ghost use Rattle.core_reader.specs.Texts.{ReadsWhole, ReadsBehind};
ghost use Rattle.core_reader.specs.Heads.{version, format_line, theory_line, head, text_end, behind_tag, ReadsVersion, Passes};

use expects::{Format, Input};
use reader::{Frames, Limits};
use surface::Loaded;
use token::{Class, Classes, Refusal, Token};

// The two numerals of a version, and the closing parenthesis behind them: whether it is 0 1, and where reading goes on.
fn read_version(input: &Input, at: usize) -> Result<(bool, usize), Refusal>
    requires { input.now.format ≡ Format.Core01 }
    ensures { ReadsVersion (version input.now.bytes.now) at result }
{
    let major = input.parse_natural(at)?;
    let minor = input.parse_natural(major.end)?;
    let close = input.expect_rparen(minor.end)?;
    Ok((input.is_version(major, minor, b"1"), close.end))
}

// `(format 0 1)`
fn format_line(input: &Input, at: usize) -> Result<(bool, usize), Refusal>
    requires { input.now.format ≡ Format.Core01 }
    ensures { ReadsVersion (format_line input.now.bytes.now) at result }
{
    let w = input.expect_tag(at, b"format")?;
    read_version(input, w.end)
}

// Whether the theory's name, a part of the text, is `mltt-core`.
fn is_theory(s: &[u8], name: Token) -> bool
    requires { TokenInside (length s.now) name }
    ensures { result ≡ same_bytes (text s.now name) (ascii "mltt-core") }
{
    words::same_bytes(&s[name.start..name.end], b"mltt-core")
}

// `(theory "mltt-core" 0 1)`
fn theory_line(input: &Input, at: usize) -> Result<(bool, usize), Refusal>
    requires { input.now.format ≡ Format.Core01 }
    ensures { ReadsVersion (theory_line input.now.bytes.now) at result }
{
    let w = input.expect_tag(at, b"theory")?;
    let (name, next) = input.parse_name(w.end)?;
    let (supported, end) = read_version(input, next)?;
    Ok((is_theory(input.bytes, name) && supported, end))
}

// The head, and where reading goes on. Its versions and the theory's name are judged behind the theory's parenthesis.
fn read_head(input: &Input) -> Result<usize, Refusal>
    requires { input.now.format ≡ Format.Core01 }
    ensures { Passes (head input.now.bytes.now) 0 result }
{
    let w = input.expect_tag(0, b"hott-core")?;
    let (format, next) = format_line(input, w.end)?;
    let (theory, end) = theory_line(input, next)?;
    if format && theory {
        return Ok(end);
    }
    Err(Refusal::nowhere(Class::Version))
}

// What stands behind the declarations: the closing parenthesis of the whole text, and the end.
fn read_end(input: &Input, at: usize) -> Result<usize, Refusal>
    requires { input.now.format ≡ Format.Core01 }
    ensures { Passes (text_end input.now.bytes.now) at result }
{
    let close = input.expect_rparen(at)?;
    let end = input.expect_end(close.end)?;
    Ok(end.end)
}

// The declarations behind their tag, and what stands behind them.
fn read_behind(
    input: &Input,
    table: &mut [u32],
    list: &mut [u32],
    work: &mut [u32],
    at: usize,
) -> Result<Loaded, Refusal>
    requires { input.now.format ≡ Format.Core01 }
    ensures { ReadsBehind (behind_tag input.now.bytes.now (length table.old / 8) (length list.old / 5) (position_at at 0)) input.now.bytes.now table.old list.old work.old at result table.new list.new }
{
    let limits = Limits {
        rows: table.len() / 8,
        declarations: list.len() / 5,
    };
    let all = reader::read_declarations::<Frames>(input, table, list, work, at, limits)?;
    read_end(input, all.next)?;
    Ok(Loaded {
        rows: all.rows,
        declarations: all.declarations,
    })
}

// The port of `parse_module`, but for the test of the names: a core text into rows and records. Its tokens are its own; a reader of all
// formats is handed the table of byte classes all the same.
pub fn read_text(
    s: &[u8],
    table: &mut [u32],
    list: &mut [u32],
    work: &mut [u32],
) -> Result<Loaded, Refusal>
    ensures { ReadsWhole s.now table.old list.old work.old result table.new list.new }
{
    let classes = Classes::new();
    let input = Input {
        bytes: s,
        classes: &classes,
        format: Format::Core01,
    };
    let next = read_head(&input)?;
    let w = input.expect_tag(next, b"declarations")?;
    read_behind(&input, table, list, work, w.end)
}
