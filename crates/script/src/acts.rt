// What stands at a place of a script: an act line, and the job text, the number or the tick that it calls for.
ghost use Rattle.std.specs.Prelude.{◌≡◌, ◌<◌, ◌≤◌, length};
ghost use Rattle.lines.specs.DueLines.{key_bytes};
ghost use Rattle.script.specs.declared.acts.Stop.TheVariants.{Line};
ghost use Rattle.script.specs.Parts.{stop_number, JobActIs, FigureIs, ActIs};

use lines::keys::Key;
use lines::line::{DueLine, Fault, Reading, Unread, begins_with, read_line};
use rules::{DEFAULT_MACHINES, Job};
use texts::job::{FIGURES, read_job_into};

// What an act calls for, with its figure. A submission's job stands in the place that is lent for it: held here it would be set to zeros
// again for each act.
#[derive(Clone, Copy)]
pub enum Kind {
    Submit,
    Withdraw(u64),
    Advance(u64),
}

// Why reading a script ends before its input does.
#[derive(Clone, Copy, PartialEq, Eq)]
pub enum Stop {
    // A line that an act calls for is refused.
    Line(Fault),
    // No act line stands where one is due.
    NoAct,
    // The input is above the limit: nothing of it is acted on.
    TooLong,
}

impl Stop {
    pub fn number(self) -> u64
        ensures { result ≡ stop_number self }
    {
        match self {
            Stop::Line(fault) => fault.number(),
            Stop::NoAct => 17,
            Stop::TooLong => 19,
        }
    }
}

impl From<Unread> for Stop {
    ghost from_gives = { λ unread stop. stop ≡ Line unread.fault };

    fn from(unread: Unread) -> Stop {
        Stop::Line(unread.fault)
    }
}

// The act lines, line feed included.
const SUBMIT: &[u8] = b"act=submit\n";

const WITHDRAW: &[u8] = b"act=withdraw\n";

const CLOCK: &[u8] = b"act=clock\n";

// The part of the script that starts at the job's first line is handed to the job reader.
fn submit_act(
    input: &[u8],
    from: usize,
    row: &mut [u64; FIGURES],
    job: &mut Job,
) -> Result<Reading<Kind>, Stop>
    requires { from ≤ length input.now }
    ensures { JobActIs input.now from job.new result }
{
    let next = read_job_into(&input[from..], DEFAULT_MACHINES as u64, row, job)?;
    Ok(Reading {
        value: Kind::Submit,
        next: from + next,
    })
}

// The figure of the line that stands at a place, with the key that is due.
fn figure_act(input: &[u8], from: usize, key: Key) -> Result<Reading<u64>, Stop>
    requires { from ≤ length input.now }
    ensures { FigureIs (key_bytes key) input.now from result }
{
    let line = read_line(&input[from..], 0, DueLine::any_figure(key))?;
    Ok(Reading {
        next: from + line.next,
        ..line
    })
}

// The act at a place before the input's end: its call, and the place after it. The row is room for a job's figures.
pub fn next_act(
    input: &[u8],
    at: usize,
    row: &mut [u64; FIGURES],
    job: &mut Job,
) -> Result<Reading<Kind>, Stop>
    requires { at < length input.now }
    ensures { ActIs input.now at job.new result }
{
    let rest = &input[at..];
    if begins_with(rest, SUBMIT) {
        return submit_act(input, at + SUBMIT.len(), row, job);
    }
    if begins_with(rest, WITHDRAW) {
        let number = figure_act(input, at + WITHDRAW.len(), Key::Job)?;
        return Ok(number.map(|number| Kind::Withdraw(number)));
    }
    if begins_with(rest, CLOCK) {
        let tick = figure_act(input, at + CLOCK.len(), Key::Tick)?;
        return Ok(tick.map(|tick| Kind::Advance(tick)));
    }
    Err(Stop::NoAct)
}
