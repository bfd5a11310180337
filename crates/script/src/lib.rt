// The program `register` as a function on bytes: a script goes in, answers and a listing come out.
#![tactic(auto)]

mod acts;
mod calls;
mod listing;
mod output;
mod replies;

ghost use Rattle.std.specs.Prelude.{◌≡◌};
ghost use Rattle.rules.specs.Words.{setup_by_default};
ghost use Rattle.lines.specs.Put.{Puts};
ghost use Rattle.script.specs.Program.{program};
ghost use Rattle.script.specs.Contract.{Runs};
ghost use Rattle.script.specs.Parts.{AskRefusal, PutsRefusal, AskCalls, AskTooLong, too_long_output};

use acts::{Stop, next_act};
use calls::called;
use listing::put_listing;
use output::put_any_field;
use placement::own::Own;
use replies::put_reply;
use rules::tables::default_setup;
use rules::{Answer, Job};
use texts::job::FIGURES;
use timetable::Timetable;

// The largest input, and an output buffer that is large enough for every input.
pub const INPUT: usize = 65_536;

pub const OUTPUT: usize = 184_320;

// The end of a script that a reading refusal ended: its number, and the listing.
fn put_refusal(output: &mut [u8], at: usize, stop: Stop, timetable: &Timetable) -> usize
    requires { AskRefusal output.old at timetable.now }
    ensures { PutsRefusal output.old at stop timetable.now output.new result }
{
    let start = put_any_field(output, at, b"refused=", stop.number());
    put_listing(output, start, timetable)
}

// The calls of a script in their order, each answered before the next is read. The timetable is lent to each, and nothing of it is copied.
fn run_calls(input: &[u8], output: &mut [u8]) -> usize
    requires { AskCalls input.now output.old }
    ensures { Puts output.old 0 (program setup_by_default input.now) output.new result }
{
    let setup = default_setup();
    let mut timetable = Timetable::new();
    let mut own = Own::new();
    let mut row = [0; FIGURES];
    let mut job = Job::default();
    let mut at = 0;
    let mut end = 0;
    while at < input.len() {
        let act = match next_act(input, at, &mut row, &mut job) {
            Ok(act) => act,
            Err(stop) => return put_refusal(output, end, stop, &timetable),
        };
        let answer = called(&setup, act.value, &job, &mut timetable, &mut own);
        end = put_reply(output, end, act.value, Answer::from(answer));
        at = act.next;
    }
    put_listing(output, end, &timetable)
}

// An input above the limit: nothing of it is acted on.
fn put_too_long(output: &mut [u8]) -> usize
    requires { AskTooLong output.old }
    ensures { Puts output.old 0 too_long_output output.new result }
{
    put_refusal(output, 0, Stop::TooLong, &Timetable::new())
}

// Writes what the program `register` prints for an input, and answers how many bytes that is.
pub fn run(input: &[u8], output: &mut [u8; OUTPUT]) -> usize
    ensures { Runs input.now output.old output.new result }
{
    if INPUT < input.len() {
        return put_too_long(output);
    }
    run_calls(input, output)
}
