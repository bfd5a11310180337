// Refusals 1 to 3: a number, a count or a figure out of range.
ghost use Rattle.std.specs.Prelude.{◌≡◌, ◌≤◌};
ghost use Rattle.rules.specs.Words.{largest_number, most_machines};
ghost use Rattle.rules.specs.Refusals.{outside, miscounted as miscounted_of};
ghost use Rattle.screening.specs.Screens.{TaskOutsideIs, AskFigures, OutOfRangeIs};

use rules::{HORIZON, Job, LAST_JOB, MESSAGES, TASKS, Task};

// The largest scheduling, dispatch or run time.
const LONGEST: u64 = 1_000_000;

pub fn number_outside(number: u64) -> bool
    ensures { result ≡ outside 1 largest_number number }
{
    !(1..=LAST_JOB).contains(&number)
}

#[tactic(auto, unfolding(rules::specs::Refusals::miscounted))]
pub fn miscounted(job: &Job) -> bool
    ensures { result ≡ miscounted_of job.now }
{
    !(1..=TASKS as u64).contains(&job.taskcount) || (MESSAGES as u64) < job.messagecount
}

// A deadline, a dispatch time or a run time of the task is out of range.
#[tactic(auto, unfolding(rules::specs::Refusals::task_out_of_range))]
fn task_outside(task: &Task, machines: usize) -> bool
    requires { machines ≤ most_machines }
    ensures { TaskOutsideIs machines task.now result }
{
    !(1..=HORIZON).contains(&task.deadline)
        || LONGEST < task.dispatch
        || task.runs[..machines].iter().any(|run| LONGEST < *run)
}

#[tactic(auto, unfolding(rules::specs::Refusals::out_of_range))]
pub fn out_of_range(job: &Job, machines: usize) -> bool
    requires { AskFigures machines job.now }
    ensures { OutOfRangeIs machines job.now result }
{
    LONGEST < job.scheduling || job.tasks().iter().any(|task| task_outside(task, machines))
}
