// Jobs with all the tasks and messages that there is room for, and with the largest figures.
use builder::{message, task};
use rules::{DEFAULT_MACHINES, HORIZON, Job, LAST_JOB, MESSAGES, Message, TASKS, Task};
use std::array;

// The largest scheduling, dispatch or run time.
pub const LARGEST_TIME: u64 = 1_000_000;

pub const LARGEST_VOLUME: u64 = 1_000;

// One tick on machine 1.
pub fn easy() -> Task {
    task(1_000, 1, [1, 0, 0, 0])
}

// From each of tasks 1 to 4 to each of tasks 9 to 16.
fn across(volume: u64) -> [Message; MESSAGES] {
    array::from_fn(|i| message((1 + i % 4) as u64, (9 + i / 4) as u64, volume))
}

// One machine alone for each task, each in turn, and the later the task the earlier its deadline.
fn in_turn() -> [Task; TASKS] {
    array::from_fn(|i| {
        let mut runs = [0; DEFAULT_MACHINES];
        runs[i % DEFAULT_MACHINES] = 3;
        task(1_000 - i as u64, 1, runs)
    })
}

// All the tasks and messages that a job has room for, over every machine and link.
pub fn sixteen() -> Job {
    Job {
        number: 9,
        scheduling: 2,
        taskcount: TASKS as u64,
        tasks: in_turn(),
        messagecount: MESSAGES as u64,
        messages: across(5),
    }
}

// All the entries that a job has room for, with these counts.
pub fn all_entries(number: u64, taskcount: u64, messagecount: u64) -> Job {
    Job {
        number,
        scheduling: 0,
        taskcount,
        tasks: [easy(); TASKS],
        messagecount,
        messages: across(0),
    }
}

// The largest figures: the first eight tasks on machine 1, the others on machine 2.
fn large_tasks() -> [Task; TASKS] {
    array::from_fn(|i| {
        let runs = if i < 8 {
            [LARGEST_TIME, 0, 0, 0]
        } else {
            [0, LARGEST_TIME, 0, 0]
        };
        task(HORIZON, LARGEST_TIME, runs)
    })
}

// All tasks and messages, of the largest figures, but for the scheduling time.
pub fn largest(scheduling: u64) -> Job {
    Job {
        number: LAST_JOB,
        scheduling,
        taskcount: TASKS as u64,
        tasks: large_tasks(),
        messagecount: MESSAGES as u64,
        messages: across(LARGEST_VOLUME),
    }
}

// The same, but for the last task.
pub fn largest_with_task(last: Task) -> Job {
    let mut job = largest(LARGEST_TIME);
    job.tasks[TASKS - 1] = last;
    job
}

// The same, but for the last volume.
pub fn largest_with_volume(volume: u64) -> Job {
    let mut job = largest(LARGEST_TIME);
    job.messages[MESSAGES - 1].volume = volume;
    job
}
