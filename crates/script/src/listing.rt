// The listing: clock, total, held, then the rows by machine and start, and by link and start.
ghost use Rattle.std.specs.Prelude.{◌+◌, ◌≤◌, length};
ghost use Rattle.script.specs.Listing.{task_listed, message_listed, row_bytes, heading};
ghost use Rattle.script.specs.Parts.{PutsAtMost, most_heading, span_listed, most_span, most_row, AskRows, PutsRows, AskListing, PutsListing};

use crate::output::put_any_field;
use rules::{Holder, Row};
use timetable::Timetable;

fn put_heading(output: &mut [u8], at: usize, clock: u64, total: u64, held: u64) -> usize
    requires { at + most_heading ≤ length output.old }
    ensures { PutsAtMost output.old at (heading clock total held) output.new result most_heading }
{
    let at1 = put_any_field(output, at, b"clock=", clock);
    let at2 = put_any_field(output, at1, b"total=", total);
    put_any_field(output, at2, b"held=", held)
}

// The last two fields of every row.
fn put_span(output: &mut [u8], at: usize, start: u64, finish: u64) -> usize
    requires { at + most_span ≤ length output.old }
    ensures { PutsAtMost output.old at (span_listed start finish) output.new result most_span }
{
    let at1 = put_any_field(output, at, b"start=", start);
    put_any_field(output, at1, b"finish=", finish)
}

fn put_task_row(output: &mut [u8], at: usize, machine: u64, task: u64, row: Row) -> usize
    requires { at + most_row ≤ length output.old }
    ensures { PutsAtMost output.old at (task_listed machine task row) output.new result most_row }
{
    let at1 = put_any_field(output, at, b"machine=", machine);
    let at2 = put_any_field(output, at1, b"job=", u64::from(row.job));
    let at3 = put_any_field(output, at2, b"task=", task);
    put_span(output, at3, u64::from(row.start), u64::from(row.finish))
}

fn put_message_row(
    output: &mut [u8],
    at: usize,
    source: u64,
    target: u64,
    sender: u64,
    receiver: u64,
    row: Row,
) -> usize
    requires { at + most_row ≤ length output.old }
    ensures { PutsAtMost output.old at (message_listed source target sender receiver row) output.new result most_row }
{
    let at1 = put_any_field(output, at, b"link=", source);
    let at2 = put_any_field(output, at1, b"to=", target);
    let at3 = put_any_field(output, at2, b"job=", u64::from(row.job));
    let at4 = put_any_field(output, at3, b"from=", sender);
    let at5 = put_any_field(output, at4, b"task=", receiver);
    put_span(output, at5, u64::from(row.start), u64::from(row.finish))
}

fn put_row(output: &mut [u8], at: usize, row: Row) -> usize
    requires { at + most_row ≤ length output.old }
    ensures { PutsAtMost output.old at (row_bytes row) output.new result most_row }
{
    match row.holder {
        Holder::TaskOn { machine, task } => put_task_row(
            output,
            at,
            u64::from(machine),
            u64::from(task),
            row,
        ),
        Holder::MessageOn {
            source,
            target,
            sender,
            receiver,
        } => put_message_row(
            output,
            at,
            u64::from(source),
            u64::from(target),
            u64::from(sender),
            u64::from(receiver),
            row,
        ),
    }
}

// The rows in their order, which is that of the timeline.
fn put_rows(output: &mut [u8], at: usize, timetable: &Timetable) -> usize
    requires { AskRows output.old at timetable.now }
    ensures { PutsRows output.old at timetable.now output.new result }
{
    let mut next = at;
    for k in 0..timetable.line.count() {
        next = put_row(output, next, timetable.row(k));
    }
    next
}

pub fn put_listing(output: &mut [u8], at: usize, timetable: &Timetable) -> usize
    requires { AskListing output.old at timetable.now }
    ensures { PutsListing output.old at timetable.now output.new result }
{
    let held = timetable.line.count() as u64;
    let start = put_heading(output, at, timetable.clock, timetable.total, held);
    put_rows(output, start, timetable)
}
