// The listing of document 01: reads standard input and prints the core module that loading leaves, or the refusal.
#![tactic(auto)]

mod standard;

ghost use Rattle.std.specs.Prelude.{OnOk};
ghost use Rattle.std.specs.Io.KnownBytes.{Appends};
ghost use Rattle.listing.specs.Program.{Written, Answers, program_text};

use standard::{read_input, tell, write_output};
use std::io;
use std::io::{ErrorKind, Read, Write};
use std::process::ExitCode;

// "It lends 1,024 rows to each row table, 256 declarations and a work area of 16,384 words."
fn list(s: &[u8], text: &mut [u8]) -> usize
    ensures { Written s.now text.old result text.new }
{
    let mut surface = [0u32; 8192];
    let mut core = [0u32; 8192];
    let mut declarations = [0u32; 1280];
    let mut work = [0u32; 16384];
    let listed = lister::list(
        s,
        &mut surface,
        &mut core,
        &mut declarations,
        &mut work,
        text,
    );
    listed.length
}

// Where the run failed, and why.
#[derive(Drop)]
enum Failure {
    Reading(io::Error),
    Writing(io::Error),
}

// The text's buffer has room for every text (`EveryTextFits`), so that no test is needed.
fn print_listing<W: Write>(output: &mut W, s: &[u8]) -> io::Result<()>
    ensures { OnOk result (Appends (W.contents output.old) (W.contents output.new) (program_text s.now)) }
{
    let mut text = [0u8; 262144];
    let length = list(s, &mut text);
    write_output(output, &text[..length])
}

// The buffer has a byte more than the longest source that is taken, so that a longer one is seen without reading it all. Of an input
// that could not be read nothing is written.
fn answer<R: Read, W: Write>(input: &mut R, output: &mut W) -> Result<(), Failure>
    ensures { OnOk result (Answers (R.remaining input.old) (W.contents output.old) (W.contents output.new)) }
{
    let mut source = [0u8; 65536];
    let n = read_input(input, &mut source).map_err(Failure::Reading)?;
    print_listing(output, &source[..n]).map_err(Failure::Writing)
}

// A failure is told on standard error alone. Where nobody reads on, nothing is said: the status is that of a program which the signal
// for it ended, since std holds that signal back.
fn main(rt: HostRuntime) -> ExitCode {
    match answer(&mut rt.stdin(), &mut rt.stdout()) {
        Ok(()) => ExitCode::SUCCESS,
        Err(Failure::Reading(error)) => {
            tell(&rt, "cannot read standard input", error);
            ExitCode::SUCCESS
        }
        Err(Failure::Writing(error)) => {
            if error.kind() == ErrorKind::BrokenPipe {
                return ExitCode::from(141);
            }
            tell(&rt, "cannot write standard output", error);
            ExitCode::SUCCESS
        }
    }
}
