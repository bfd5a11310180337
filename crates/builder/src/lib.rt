// Jobs from their parts, for tests. Entries past a job's counts are blank.
#![tactic(auto)]

ghost use Rattle.std.specs.Prelude.{◌≡◌, min, length};

use rules::arrays::filled;
use rules::{DEFAULT_MACHINES, Job, MACHINES, MESSAGES, Message, TASKS, Task};
use std::array;

// Run times on the machines of the default table, and a figure for each place past them.
pub fn over_machines(runs: [u64; DEFAULT_MACHINES], past: u64) -> [u64; MACHINES] {
    array::from_fn(|i| runs.get(i).copied().unwrap_or(past))
}

pub fn task(deadline: u64, dispatch: u64, runs: [u64; DEFAULT_MACHINES]) -> Task
    ensures deadline { result.deadline ≡ deadline }
    ensures dispatch { result.dispatch ≡ dispatch }
{
    Task {
        deadline,
        dispatch,
        runs: over_machines(runs, 0),
    }
}

pub fn message(sender: u64, receiver: u64, volume: u64) -> Message
    ensures { result ≡ record { sender = sender; receiver = receiver; volume = volume } }
{
    Message {
        sender,
        receiver,
        volume,
    }
}

// The items from the start on, and blanks past them.
fn padded<T: Copy + Default, const N: usize>(items: &[T]) -> [T; N] {
    filled(items.len().min(N), |i| items[i])
}

// A job of these tasks and messages, or of as many of them as it has room for.
pub fn job(number: u64, tasks: &[Task], messages: &[Message]) -> Job
    ensures number { result.number ≡ number }
    ensures tasks { result.taskcount ≡ min (length tasks.now) TASKS }
    ensures messages { result.messagecount ≡ min (length messages.now) MESSAGES }
{
    Job {
        number,
        scheduling: 0,
        taskcount: tasks.len().min(TASKS) as u64,
        tasks: padded(tasks),
        messagecount: messages.len().min(MESSAGES) as u64,
        messages: padded(messages),
    }
}

// The job with one message more, where it has room.
pub fn with_message(mut job: Job, message: Message) -> Job
    ensures { result.number ≡ job.number }
{
    let at = job.messagecount as usize;
    if at < MESSAGES {
        job.messages[at] = message;
        job.messagecount += 1;
    }
    job
}

// One task, which takes one row.
pub fn alone(number: u64, task: Task) -> Job
    ensures { result.number ≡ number }
{
    job(number, &[task], &[])
}

// The same after so much scheduling time.
pub fn alone_after(number: u64, scheduling: u64, task: Task) -> Job
    ensures number { result.number ≡ number }
    ensures scheduling { result.scheduling ≡ scheduling }
{
    Job {
        scheduling,
        ..alone(number, task)
    }
}
