// Runs the program `register` on every case of a container, and compares what it would write with what is expected. A case is a line
// `script=N` and N bytes, a line `output=M` and M bytes.
#![tactic(auto)]

ghost use Rattle.std.specs.Prelude.{◌<◌, length, IfSome};

use lines::line::{DIGITS, number};
use script::{OUTPUT, run};
use std::io;
use std::io::Read;

// Differences are counted up to this many, and each is printed.
const MOST_COUNTED: u64 = 1_000_000;

// A part of the container: its bytes, and what is left after them.
#[derive(Clone, Copy)]
struct Part<'a> {
    bytes: &'a [u8],
    rest: &'a [u8],
}

// A case: whether the output is the expected one, and what is left after it.
#[derive(Clone, Copy)]
struct Case<'a> {
    alike: bool,
    rest: &'a [u8],
}

// A line with a count, and so many bytes after it; none where the container is not as its form says.
fn read_part<'a>(text: &'a [u8], key: &[u8]) -> Option<Part<'a>>
    ensures { IfSome result (λ part. length part.rest.now < length text.now) }
{
    let line = text.strip_prefix(key)?;
    let digits = number(line, DIGITS)?;
    let (bytes, rest) = line[digits.count + 1..].split_at_checked(digits.value as usize)?;
    Some(Part { bytes, rest })
}

// Whether the program would write these bytes.
fn is_expected(input: &[u8], expected: &[u8]) -> bool {
    let mut output = [0; OUTPUT];
    let count = run(input, &mut output);
    &output[..count] == expected
}

fn next_case(text: &[u8]) -> Option<Case<'_>>
    ensures { IfSome result (λ case. length case.rest.now < length text.now) }
{
    let input = read_part(text, b"script=")?;
    let expected = read_part(input.rest, b"output=")?;
    Some(Case {
        alike: is_expected(input.bytes, expected.bytes),
        rest: expected.rest,
    })
}

// All cases, one after the other.
fn check_all(rt: &impl Print, text: &[u8]) -> io::Result<()> {
    let mut rest = text;
    let mut cases: u64 = 0;
    let mut different: u64 = 0;
    while !rest.is_empty() {
        let Some(case) = next_case(rest) else {
            return println!(rt; "the container is damaged");
        };
        if !case.alike {
            println!(rt; "differs={cases}")?;
            different = MOST_COUNTED.min(different + 1);
        }
        cases += 1;
        rest = case.rest;
    }
    println!(rt; "cases={cases}")?;
    println!(rt; "different={different}")
}

fn main(rt: HostRuntime) -> io::Result<()> {
    let mut text = Vec::new(rt.alloc());
    rt.stdin().read_to_end(&mut text)?;
    check_all(&rt, &text)
}
