// The program `register`: a script on standard input, answers and a listing on standard output. What fails is said on standard error.
#![tactic(auto)]

ghost use Rattle.std.specs.Prelude.{◌≡◌, ◌+◌, ◌<◌, ◌≤◌, length, take, OnOk, IfOk, IfSome, IfErr, IsErrOf};
ghost use Rattle.std.specs.Io.KnownBytes.{Keeps, Appends};
ghost use Rattle.rules.specs.Words.{setup_by_default};
ghost use Rattle.script.specs.Program.{program, input_limit};
ghost use Rattle.register.specs.Reading.{ReadsNext, AskBuffer, HoldsInput};

use script::{INPUT, OUTPUT, run};
use std::fmt;
use std::io::{Read, Write};
use std::process::ExitCode;

// One byte more than the largest input, so that an input above it is noticed.
const BUFFER: usize = INPUT + 1;

// What of the program failed.
#[derive(Clone, Copy, PartialEq, Eq)]
enum Failure {
    Reading,
    Writing,
}

impl fmt::Display for Failure {
    fn fmt<W: fmt::Write>(&self, f: &mut fmt::Formatter<W>) -> fmt::Result {
        f.write_str(match self {
            Failure::Reading => "register: reading the input failed",
            Failure::Writing => "register: writing the output failed",
        })
    }
}

// One read into the buffer from a place on. It answers the place after the bytes that came: there is room for one, so none is the end of the input.
fn read_into<R: Read>(reader: &mut R, buffer: &mut [u8], at: usize) -> Result<usize, Failure>
    requires { at < length buffer.old }
    ensures place { IfOk result (λ next. (at ≤ next) × (next ≤ length buffer.old)) }
    ensures bytes { ReadsNext (R.remaining reader.old) (R.remaining reader.new) buffer.new at result }
    ensures kept { take at buffer.new ≡ take at buffer.old }
{
    reader
        .read(&mut buffer[at..])
        .map(|count| at + count)
        .map_err(|_| Failure::Reading)
}

// Reads to the end of the input, or until it is above the largest, and answers how many bytes there are.
// By a loop of its own: `read_to_end` reads into a `Vec`, and there is no heap here.
fn read_all<R: Read>(reader: &mut R, buffer: &mut [u8]) -> Result<usize, Failure>
    requires { AskBuffer buffer.old }
    ensures place { IfOk result (λ count. count ≤ input_limit + 1) }
    ensures bytes { IfOk result (HoldsInput (R.remaining reader.old) buffer.new) }
{
    let mut at = 0;
    while at <= INPUT {
        let next = read_into(reader, buffer, at)?;
        if next == at {
            break;
        }
        at = next;
    }
    Ok(at)
}

// Writes what the input prints.
fn answer<W: Write>(writer: &mut W, input: &[u8]) -> Result<(), Failure>
    ensures err { IfErr result (λ failure. failure ≡ Failure.Writing) }
    ensures ok { OnOk result (Appends (W.contents writer.old) (W.contents writer.new)
        (program setup_by_default input.now)) }
{
    let mut output = [0u8; OUTPUT];
    let count = run(input, &mut output);
    writer
        .write_all(&output[..count])
        .map_err(|_| Failure::Writing)
}

// The program between its streams: all of the input is read, and then all that it prints is written.
fn serve<R: Read, W: Write>(reader: &mut R, writer: &mut W) -> Result<(), Failure>
    ensures ok { OnOk result (IfSome (R.remaining reader.old) (λ text.
        Appends (W.contents writer.old) (W.contents writer.new) (program setup_by_default text))) }
    ensures unread { IsErrOf result Failure.Reading → Keeps (W.contents writer.old) (W.contents writer.new) }
{
    let mut buffer = [0u8; BUFFER];
    let count = read_all(reader, &mut buffer)?;
    answer(writer, &buffer[..count])
}

fn complain(rt: &impl Eprint, failure: Failure) -> ExitCode {
    let _ = rt.eprintln(failure);
    ExitCode::FAILURE
}

fn main(rt: HostRuntime) -> ExitCode {
    match serve(&mut rt.stdin(), &mut rt.stdout()) {
        Ok(()) => ExitCode::SUCCESS,
        Err(failure) => complain(&rt, failure),
    }
}
