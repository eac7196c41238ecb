// The question of document 02, Req 07: the module's name, from the head of a source. No table is lent, and of a longer source no more than
// the first 65,535 bytes are looked at.
#![tactic(auto)]

ghost use Rattle.std.specs.Prelude.{◌≡◌, ◌≤◌, ◌<◌, length, take};
ghost use Rattle.utf8.specs.Utf8.{valid_length};
ghost use Rattle.surface.specs.Reader.{start};
ghost use Rattle.surface.specs.Reading.{head};
ghost use Rattle.module_name.specs.ModuleName.{module_name};
ghost use Rattle.head.specs.inner.InHead.{in_head};

use module_name::Span;
use token::{Class, Classes, Refusal};

// "6 source over 65,535 bytes"
const LONGEST: usize = 65535;

// How much of the first bytes is UTF-8.
fn valid_in(s: &[u8], end: usize) -> usize
    requires { end ≤ length s.now }
    ensures { result ≡ valid_length (take end s.now) }
{
    utf8::valid_up_to(&s[..end])
}

// The name in the head of a source, of which the bytes behind the head are not looked at: they need not be UTF-8. A head never stands behind
// EF BB BF, which is refused where it would begin.
fn name_in_head(s: &[u8]) -> Result<Span, Refusal>
    ensures { result ≡ in_head s.now (head s.now start) }
{
    let found = expects::read_head(s, &Classes::new())?;
    let valid = valid_in(s, found.next);
    if valid != found.next {
        return Err(Refusal::at(Class::Malformed, valid));
    }
    Ok(Span {
        start: found.name.start,
        length: found.name.end - found.name.start,
    })
}

// A source that is refused, unless the head in its first bytes is good.
fn name_in_long(s: &[u8]) -> Result<Span, Refusal>
    requires { 65535 < length s.now }
    ensures { result ≡ module_name s.now }
{
    name_in_head(&s[..LONGEST]).map_err(|_| Refusal::nowhere(Class::LongSource))
}

// The name in the head, or else the refusal of the whole source: UTF-8 of all of it comes before what the head was refused for.
pub fn head(s: &[u8]) -> Result<Span, Refusal>
    ensures { result ≡ module_name s.now }
{
    if LONGEST < s.len() {
        return name_in_long(s);
    }
    match name_in_head(s) {
        Ok(name) => Ok(name),
        Err(refusal) => {
            let valid = utf8::valid_up_to(s);
            if valid != s.len() {
                return Err(Refusal::at(Class::Malformed, valid));
            }
            Err(refusal)
        }
    }
}
