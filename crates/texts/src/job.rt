// The job reader, and a job as a row of figures: its lines' figures in their order, lent, and read through functions that alone know the places.
ghost use Rattle.std.specs.Prelude.{◌≡◌, ℕ, ◌+◌, ◌*◌, ◌≤◌, ◌<◌, length, take, drop};
ghost use Rattle.rules.specs.Words.{most_machines};
ghost use Rattle.texts.specs.JobText.{head_size, task_size, message_size, task_said, message_said, job_said};
ghost use Rattle.texts.specs.JobText.{message_figures};
ghost use Rattle.texts.specs.Reader.{Reads, ReadsInto, ReadsCount, default_machines};
ghost use Rattle.lines.specs.Put.{Puts};
ghost use Rattle.texts.specs.Rows.{MachineCount, AskTask, AskMessage, CountsInRange, Countable};
ghost use Rattle.texts.specs.Rows.{TaskPut, JobPut, AskSent, sent_figures};

use crate::forms::read_form;
use crate::job_lines::JobLine;
use lines::line::{Reading, Unread};
use rules::arrays::filled;
use rules::{DEFAULT_MACHINES, Job, MACHINES, MESSAGES, Message, TASKS, Task};

// The figures that a job has at the most. A job is a row of figures in between since one engine serves every text, and C hands figures.
pub const FIGURES: usize = 4 + TASKS * (2 + MACHINES) + MESSAGES * 3;

// The task at an index, from 0.
fn task_at(row: &[u64; FIGURES], machines: usize, index: usize) -> Task
    requires { AskTask machines index }
    ensures { result ≡ task_said (take (task_size machines) (drop (head_size + index * task_size machines) row.now)) }
{
    let from = 3 + index * (2 + machines);
    let mut runs = [0; MACHINES];
    runs[..machines].copy_from_slice(&row[from + 2..from + 2 + machines]);
    Task {
        deadline: row[from],
        dispatch: row[from + 1],
        runs,
    }
}

// The message at an index, from 0, where the figures of messages begin at `from`.
fn message_at(row: &[u64; FIGURES], from: usize, index: usize) -> Message
    requires { AskMessage from index }
    ensures { result ≡ message_said (take message_size (drop (from + index * message_size) row.now)) }
{
    let at = from + index * 3;
    Message {
        sender: row[at],
        receiver: row[at + 1],
        volume: row[at + 2],
    }
}

// The job that a row of figures says, whose counts are in range.
pub fn job_of(row: &[u64; FIGURES], machines: u64) -> Job
    requires { CountsInRange machines row.now }
    ensures { result ≡ job_said machines row.now }
{
    let taskcount = row[2];
    let at = (3 + taskcount * (2 + machines)) as usize;
    let messagecount = row[at];
    Job {
        number: row[0],
        scheduling: row[1],
        taskcount,
        tasks: filled(taskcount as usize, |i| task_at(row, machines as usize, i)),
        messagecount,
        messages: filled(messagecount as usize, |i| message_at(row, at + 1, i)),
    }
}

// A task's figures, from a place on. Answers the place after them.
fn put_task(row: &mut [u64], at: usize, machines: usize, task: &Task) -> usize
    requires { (at + task_size machines ≤ length row.old) × (machines ≤ most_machines) }
    ensures { TaskPut machines task.now row.old at row.new result }
{
    let end = at + 2 + machines;
    row[at] = task.deadline;
    row[at + 1] = task.dispatch;
    row[at + 2..end].copy_from_slice(&task.runs[..machines]);
    end
}

// A message's figures, from a place on. Answers the place after them.
fn put_message(row: &mut [u64], at: usize, message: &Message) -> usize
    requires { at + message_size ≤ length row.old }
    ensures { Puts row.old at (message_figures message.now) row.new result }
{
    row[at] = message.sender;
    row[at + 1] = message.receiver;
    row[at + 2] = message.volume;
    at + 3
}

// The figures of a job whose counts are in range, from the row's start on. Answers how many they are.
pub fn job_figures(row: &mut [u64; FIGURES], machines: u64, job: &Job) -> usize
    requires { Countable machines job.now row.old }
    ensures { JobPut machines job.now row.old row.new result }
{
    row[0] = job.number;
    row[1] = job.scheduling;
    row[2] = job.taskcount;
    let mut at = 3;
    for task in job.tasks() {
        at = put_task(row, at, machines as usize, task);
    }
    row[at] = job.messagecount;
    put_messages(row, at + 1, job)
}

fn put_messages(row: &mut [u64], from: usize, job: &Job) -> usize
    requires { AskSent from job.now row.old }
    ensures { Puts row.old from (sent_figures job.now) row.new result }
{
    let mut at = from;
    for message in job.messages() {
        at = put_message(row, at, message);
    }
    at
}

// The job that a part of a script says, which starts at the job's first line, for a table of so many machines. It goes to the place that is lent, and the place
// after its last line is answered: in the answer it was copied once more. A refusal leaves what stood there. The row for its figures is lent too, and may hold
// anything: a new one is set to zeros each time.
pub fn read_job_into(
    text: &[u8],
    machines: u64,
    row: &mut [u64; FIGURES],
    job: &mut Job,
) -> Result<usize, Unread>
    requires { MachineCount machines }
    ensures { ReadsInto machines text.now job.old job.new result }
{
    let read = read_form(text, JobLine::Number, machines, row)?;
    *job = job_of(row, machines);
    Ok(read.next)
}

// The same as an answer with the job.
pub fn read_job_over(text: &[u8], machines: u64) -> Result<Reading<Job>, Unread>
    requires { MachineCount machines }
    ensures job { Reads machines text.now result }
    ensures count { ReadsCount machines text.now result }
{
    let mut row = [0; FIGURES];
    let mut job = Job::default();
    let next = read_job_into(text, machines, &mut row, &mut job)?;
    Ok(Reading { value: job, next })
}

// The same for the default table.
pub fn read_job(text: &[u8]) -> Result<Reading<Job>, Unread>
    ensures job { Reads default_machines text.now result }
    ensures count { ReadsCount default_machines text.now result }
{
    read_job_over(text, DEFAULT_MACHINES as u64)
}
