// Screening: the tests of a submission that read no row: refusals 1 to 4, and 6.
#![tactic(auto)]

mod messages;
mod ranges;

ghost use Rattle.std.specs.Prelude.{◌≤◌};
ghost use Rattle.rules.specs.Words.{most_machines};
ghost use Rattle.screening.specs.Screens.{ScreenedIs, AskInfeasible, InfeasibleIs, AskInfeasibles, FirstIs};

use messages::bad_messages;
use ranges::{miscounted, number_outside, out_of_range};
use rules::answers::Refusal;
use rules::{Job, Task};

// The first of refusals 1 to 4, which read the job and the count of machines alone.
#[tactic(auto, unfolding(rules::specs::Refusals::miscounted))]
pub fn screened(job: &Job, machines: usize) -> Result<(), Refusal>
    requires { machines ≤ most_machines }
    ensures { ScreenedIs machines job.now result }
{
    if number_outside(job.number) {
        return Err(Refusal::NumberOutOfRange);
    }
    if miscounted(job) {
        return Err(Refusal::Miscounted);
    }
    if out_of_range(job, machines) {
        return Err(Refusal::FigureOutOfRange);
    }
    if bad_messages(job) {
        return Err(Refusal::BadMessages);
    }
    Ok(())
}

// No machine, or clock plus the least non-zero run time exceeds the deadline: no machine ends in time even if it starts at once.
fn infeasible(task: &Task, machines: usize, clock: u64) -> bool
    requires { AskInfeasible task.now machines clock }
    ensures { InfeasibleIs task.now machines clock result }
{
    !task.runs[..machines]
        .iter()
        .any(|run| *run != 0 && clock + *run <= task.deadline)
}

// The lowest infeasible task, by its number.
pub fn first_infeasible(job: &Job, machines: usize, clock: u64) -> Option<u64>
    requires { AskInfeasibles job.now machines clock }
    ensures { FirstIs job.now machines clock result }
{
    job.tasks()
        .iter()
        .position(|task| infeasible(task, machines, clock))
        .map(|index| index as u64 + 1)
}
