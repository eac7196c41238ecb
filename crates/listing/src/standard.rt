// Standard input and output, so that the end of the input is told from a read that failed, and a text that was written from one
// that was not. A call that a signal interrupts is made again.
ghost use Rattle.std.specs.Prelude.{◌≡◌, ◌≤◌, ◌<◌, length, take, OnOk};
ghost use Rattle.std.specs.Io.KnownBytes.{Appends};
ghost use Rattle.listing.specs.Moved.{Within, Read, Gives, Fills};

use std::io::{Cursor, ErrorKind, Read, Write};
use std::{io, str};

// What a call did: it moved bytes up to an offset, it moved nothing, a signal came first, or it failed.
#[derive(Drop)]
enum Transfer {
    To(usize),
    Nothing,
    Interrupted,
    Failed(io::Error),
}

fn read_from<R: Read>(input: &mut R, buf: &mut [u8], from: usize) -> Transfer
    requires { from ≤ length buf.old }
    ensures within { Within (length buf.new) result }
    ensures kept { take from buf.new ≡ take from buf.old }
    ensures bytes { Gives (R.remaining input.old) (R.remaining input.new) from buf.new result }
{
    match input.read(&mut buf[from..]) {
        Ok(0) => Transfer::Nothing,
        Ok(moved) => Transfer::To(from + moved),
        Err(error) => {
            if error.kind() == ErrorKind::Interrupted {
                return Transfer::Interrupted;
            }
            Transfer::Failed(error)
        }
    }
}

// How many bytes were read, up to the end of the input or of the buffer; or the call that failed left no source.
// A proved loop has to end, and nothing says that signals do: it counts its turns, up to a number that no run reaches.
pub fn read_input<R: Read>(input: &mut R, buf: &mut [u8]) -> io::Result<usize>
    ensures within { Read (length buf.new) result }
    ensures bytes { Fills (R.remaining input.old) (R.remaining input.new) buf.new result }
{
    let mut done = 0;
    for _turn in 0..u64::MAX {
        if done == buf.len() {
            break;
        }
        match read_from(input, buf, done) {
            Transfer::To(end) => done = end,
            Transfer::Nothing => return Ok(done),
            Transfer::Interrupted => {}
            Transfer::Failed(error) => return Err(error),
        }
    }
    if done < buf.len() {
        return Err(io::Error::from(ErrorKind::Interrupted));
    }
    Ok(done)
}

// All of the text is written, or a call failed.
pub fn write_output<W: Write>(output: &mut W, text: &[u8]) -> io::Result<()>
    ensures { OnOk result (Appends (W.contents output.old) (W.contents output.new) text.now) }
{
    output.write_all(text)
}

// Says on standard error what could not be done, and why in the system's words: std puts its number behind them.
pub fn tell(rt: &impl Eprint, what: &str, error: io::Error) {
    let mut told = Cursor::new([0u8; 256]);
    let _ = write!(told, "{error}");
    let length = told.position() as usize;
    let bytes = told.into_inner();
    let words = match str::from_utf8(&bytes[..length.min(256)]) {
        Ok(words) => words,
        Err(_) => "",
    };
    let reason = match words.split_once(" (os error ") {
        Some((reason, _)) => reason,
        None => words,
    };
    let _ = eprintln!(rt; "listing: {what}: {reason}");
}
