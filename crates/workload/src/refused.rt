// Jobs in the order in which a program submits them: refused ones, and accepted ones at the limits beside them.
use crate::limits::{all_entries, easy, largest, largest_with_task, largest_with_volume};
use builder::{alone, job, message, task};
use rules::{Job, Message, Task};

// For refusals 1 and 2.
pub fn by_counts() -> [Job; 11] {
    [
        alone(0, easy()),
        alone(65_536, easy()),
        alone(u64::MAX, easy()),
        alone(1, easy()),
        all_entries(7, 0, 0),
        all_entries(7, 17, 0),
        all_entries(7, u64::MAX, 0),
        all_entries(7, 16, 33),
        all_entries(7, 16, u64::MAX),
        all_entries(7, 16, 32),
        all_entries(8, 1, 0),
    ]
}

// For 3, and for 4 by a volume, beside the largest figures.
pub fn by_figures() -> [Job; 5] {
    [
        largest(1_000_001),
        largest(u64::MAX),
        largest_with_volume(1_001),
        largest_with_volume(u64::MAX),
        alone(9, task(1, 0, [0, 0, 1, 0])),
    ]
}

// For 3, in the last task of the largest job.
pub fn by_last_task() -> [Job; 10] {
    [
        task(0, 0, [1, 1, 1, 1]),
        task(1_000_000_001, 0, [1, 1, 1, 1]),
        task(u64::MAX, 0, [1, 1, 1, 1]),
        task(1_000, 1_000_001, [1, 1, 1, 1]),
        task(1_000, u64::MAX, [1, 1, 1, 1]),
        task(1_000, 0, [1_000_001, 1, 1, 1]),
        task(1_000, 0, [1, 1_000_001, 1, 1]),
        task(1_000, 0, [1, 1, 1_000_001, 1]),
        task(1_000, 0, [1, 1, 1, 1_000_001]),
        task(1_000, 0, [1, 1, 1, u64::MAX]),
    ]
    .map(largest_with_task)
}

// Three tasks of one tick on machine 1.
fn trio(messages: &[Message]) -> Job {
    job(7, &[easy(); 3], messages)
}

// For 4.
pub fn by_messages() -> [Job; 11] {
    [
        trio(&[message(2, 2, 0)]),
        trio(&[message(3, 2, 0)]),
        trio(&[message(u64::MAX, 2, 0)]),
        trio(&[message(0, 2, 0)]),
        trio(&[message(3, 4, 0)]),
        trio(&[message(1, u64::MAX, 0)]),
        trio(&[message(4, 5, 0)]),
        trio(&[message(1, 2, 0), message(1, 2, 5)]),
        trio(&[message(1, 2, 0), message(2, 3, 0), message(1, 3, 0)]),
        trio(&[message(1, 3, 0), message(1, 2, 0)]),
        trio(&[message(1, 2, 0), message(1, 3, 0), message(2, 3, 0)]),
    ]
}

// No machine can run it.
pub fn unrunnable() -> Task {
    task(1_000, 1, [0, 0, 0, 0])
}

// A scheduling time that is out of range.
fn slow(tasks: &[Task]) -> Job {
    Job {
        scheduling: 1_000_001,
        ..job(7, tasks, &[])
    }
}

// A dispatch time past the deadline.
fn late() -> Task {
    task(10, 11, [1, 0, 0, 0])
}

// Jobs that break two or three rules.
pub fn by_order() -> [Job; 10] {
    let to_itself = message(1, 1, 0);
    [
        job(0, &[], &[]),
        slow(&[]),
        slow(&[easy()]),
        job(7, &[task(0, 0, [1, 0, 0, 0])], &[to_itself]),
        job(7, &[easy()], &[to_itself]),
        alone(7, easy()),
        alone(7, unrunnable()),
        alone(10, unrunnable()),
        job(10, &[late(), unrunnable()], &[]),
        job(10, &[late(), easy()], &[]),
    ]
}

// An easy task, and twice one that is too long for its deadline.
fn two_short() -> Job {
    let short = task(3, 0, [0, 0, 0, 4]);
    job(10, &[easy(), short, short], &[])
}

// Two tasks with long dispatch times, by the second deadline.
fn waiting(deadline: u64) -> Job {
    let tasks = [task(12, 20, [1, 0, 0, 0]), task(deadline, 20, [1, 0, 0, 0])];
    job(11, &tasks, &[])
}

// The first task on machine 1 or 2, the second on machine 2 or 3.
fn pair(messages: &[Message]) -> Job {
    let tasks = [task(30, 2, [4, 4, 0, 0]), task(20, 3, [0, 2, 2, 0])];
    job(11, &tasks, messages)
}

// 6 names the lowest task, 7 the one at its turn; both compare with the deadline itself.
pub fn by_turns() -> [Job; 6] {
    [
        two_short(),
        alone(10, task(4, 1, [0, 0, 0, 4])),
        alone(10, task(4, 0, [0, 0, 0, 4])),
        waiting(11),
        waiting(12),
        pair(&[]),
    ]
}

// The last of these once more, with a message: it has the same number.
pub fn pair_with_message() -> Job {
    pair(&[message(1, 2, 1)])
}
