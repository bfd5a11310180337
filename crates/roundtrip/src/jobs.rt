// A job as it was read, and with its figures and counts at their limits and past them.
ghost use Rattle.std.specs.Prelude.{◌≤◌, ◌<◌};
ghost use Rattle.rules.specs.Words.{most_tasks, most_messages};

use crate::writing::{Count, ROOM, reads_back, writes};
use rules::{DEFAULT_MACHINES, Job, MESSAGES, Message, TASKS, Task};
use texts::forms::Unwritten;

// The largest figure of ten digits, and the least of eleven.
const TEN: u64 = 9_999_999_999;

const ELEVEN: u64 = 10_000_000_000;

// A job as it was read: its text fits a buffer of its length and every longer one, and no shorter one.
fn as_read(job: &Job, text: &[u8], count: &mut Count) {
    let length = text.len();
    count.note(writes(job, 0, Err(Unwritten::NoRoom)));
    if length == 0 || ROOM <= length {
        count.note(false);
        return;
    }
    count.note(writes(job, length - 1, Err(Unwritten::NoRoom)));
    for room in [length, length + 1, ROOM] {
        count.note(writes(job, room, Ok(text)));
    }
    count.note(reads_back(job));
}

// A job that is not written, whatever the room.
fn unwritable(job: &Job, count: &mut Count) {
    for room in [0, ROOM] {
        count.note(writes(job, room, Err(Unwritten::Unwritable)));
    }
}

// The job with a figure put in the place of one that is listed: at ten digits it reads back, past them it is refused.
fn judged<F: FnOnce(&mut Job)>(job: &Job, figure: u64, count: &mut Count, put: F)
    requires { F.IsAlwaysCallable put }
{
    let mut other = *job;
    put(&mut other);
    if figure <= TEN {
        count.note(reads_back(&other));
    } else {
        unwritable(&other, count);
    }
}

// One figure of a task after the other: the deadline, the dispatch time, the last run time.
fn of_task(job: &Job, t: usize, figure: u64, count: &mut Count)
    requires { t < most_tasks }
{
    judged(job, figure, count, |job| job.tasks[t].deadline = figure);
    judged(job, figure, count, |job| job.tasks[t].dispatch = figure);
    judged(
        job,
        figure,
        count,
        |job| job.tasks[t].runs[DEFAULT_MACHINES - 1] = figure,
    );
}

// One figure of a message after the other.
fn of_message(job: &Job, i: usize, figure: u64, count: &mut Count)
    requires { i < most_messages }
{
    judged(job, figure, count, |job| job.messages[i].sender = figure);
    judged(job, figure, count, |job| job.messages[i].receiver = figure);
    judged(job, figure, count, |job| job.messages[i].volume = figure);
}

// A figure in the place of each of the head, the first and the last task, and the last message.
fn with_figure(job: &Job, figure: u64, count: &mut Count)
    requires { (job.now.taskcount ≤ most_tasks) × (job.now.messagecount ≤ most_messages) }
{
    judged(job, figure, count, |job| job.number = figure);
    judged(job, figure, count, |job| job.scheduling = figure);
    of_task(job, 0, figure, count);
    if job.taskcount != 0 {
        of_task(job, (job.taskcount - 1) as usize, figure, count);
    }
    if job.messagecount != 0 {
        of_message(job, (job.messagecount - 1) as usize, figure, count);
    }
}

// Counts out of range, one after the other.
fn with_counts(job: &Job, count: &mut Count) {
    for (taskcount, messagecount) in [
        (0, job.messagecount),
        (TASKS as u64 + 1, job.messagecount),
        (u64::MAX, job.messagecount),
        (job.taskcount, MESSAGES as u64 + 1),
        (job.taskcount, u64::MAX),
    ] {
        unwritable(
            &Job {
                taskcount,
                messagecount,
                ..*job
            },
            count,
        );
    }
}

// Figures past the counts and past the machines are no part of the job: its text is the same, however long they are.
fn past_the_counts(job: &Job, text: &[u8], count: &mut Count) {
    let mut other = *job;
    other.tasks[0].runs[DEFAULT_MACHINES] = u64::MAX;
    if job.taskcount < TASKS as u64 {
        other.tasks[job.taskcount as usize] = Task {
            deadline: u64::MAX,
            ..other.tasks[0]
        };
    }
    if job.messagecount < MESSAGES as u64 {
        other.messages[job.messagecount as usize] = Message {
            volume: u64::MAX,
            ..other.messages[0]
        };
    }
    count.note(writes(&other, text.len(), Ok(text)));
}

// All that is tried of a job and its text.
pub fn checked(job: &Job, text: &[u8], count: &mut Count) {
    if job.taskcount > TASKS as u64 || job.messagecount > MESSAGES as u64 {
        count.note(false);
        return;
    }
    as_read(job, text, count);
    past_the_counts(job, text, count);
    with_counts(job, count);
    for figure in [TEN, ELEVEN, u64::MAX] {
        with_figure(job, figure, count);
    }
}
