// The rows of the trial that is kept, behind those of the job so far, and their spans on the timeline.
ghost use Rattle.placement.specs.Appending.{AskPush, Pushed, AskAppend, AppendedIs};

use crate::bookings::{message_booking, task_booking};
use crate::own::{Entry, Own};
use drcd::choice::Kept;
use drcd::inputs::Inputs;
use drcd::{Starts, TaskTurn};
use rules::Setup;
use timeline::SPANS;
use timeline::bookings::Booking;
use timeline::line::Timeline;

// One row more. The line and the own rows stay two loans here, in `append`, `place` and `undo`: a struct of both would owe, on each, the clause that they stay the
// same two.
fn push(line: &mut Timeline<SPANS>, own: &mut Own, booking: Booking)
    requires { AskPush line.old own.old.items }
    ensures { Pushed line.old own.old.items booking line.new own.new.items }
{
    let at = line.insert(booking.begin, booking.end);
    own.push(Entry { at, booking });
}

// The rows of the messages that take one, then the task's own. By index: a zip would end with the shorter, and no clause says how long lent starts are.
pub fn append(
    setup: &Setup,
    kept: &Kept,
    starts: &Starts,
    inputs: &Inputs,
    turn: TaskTurn,
    line: &mut Timeline<SPANS>,
    own: &mut Own,
)
    requires { AskAppend setup.now kept.now starts.now inputs.now.items turn line.old own.old.items }
    ensures { AppendedIs setup.now kept.now starts.now inputs.now.items turn line.old own.old.items line.new own.new.items }
{
    let task = turn.t as u64 + 1;
    let machine = kept.machine;
    for (i, input) in inputs.as_slice().iter().enumerate() {
        if let Some(start) = starts[i] {
            push(
                line,
                own,
                message_booking(setup, task, machine, input, start),
            );
        }
    }
    let run = kept.best.finish - kept.best.start;
    push(
        line,
        own,
        task_booking(setup, task, machine, kept.best.start, run),
    );
}
