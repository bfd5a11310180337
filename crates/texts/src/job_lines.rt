// The lines of a job text, as places in its form.
ghost use Rattle.std.specs.Prelude.{◌≡◌, ℕ};
ghost use Rattle.texts.specs.JobText.{sent_lines, tasks_lines, run_lines, messages_lines};
ghost use Rattle.texts.specs.Stages.{job_at, line_due};
ghost use Rattle.texts.specs.Parts.{form_left};

use crate::forms::FormLine;
use lines::keys::Key;
use lines::line::DueLine;
use rules::{MESSAGES, TASKS};

// A count says how many tasks, run times or messages come after this one.
#[derive(Clone, Copy, PartialEq, Eq)]
pub enum JobLine {
    Number,
    Scheduling,
    Tasks,
    Deadline(u64),
    Dispatch(u64),
    Run(u64, u64),
    Messages,
    From(u64),
    To(u64),
    Volume(u64),
}

// After a run time: the next one, the next task, or the count of the messages.
fn after_run(tasks: u64, runs: u64) -> Option<JobLine>
    ensures { (machines : ℕ) → form_left (job_at machines) result ≡ run_lines runs (tasks_lines machines tasks sent_lines) }
{
    if runs != 0 {
        return Some(JobLine::Run(tasks, runs - 1));
    }
    if tasks != 0 {
        return Some(JobLine::Deadline(tasks - 1));
    }
    Some(JobLine::Messages)
}

// So many messages are still to come.
fn with_messages(left: u64) -> Option<JobLine>
    ensures { (machines : ℕ) → form_left (job_at machines) result ≡ messages_lines left }
{
    if left == 0 {
        return None;
    }
    Some(JobLine::From(left - 1))
}

impl FormLine for JobLine {
    ghost form = { job_at };

    // Ranges but those of the counts are left to submission.
    fn due(self) -> DueLine {
        match self {
            JobLine::Number => DueLine::any_figure(Key::Job),
            JobLine::Scheduling => DueLine::any_figure(Key::Sched),
            JobLine::Tasks => DueLine::ranged(Key::Tasks, 1, TASKS as u64),
            JobLine::Deadline(_) => DueLine::any_figure(Key::Deadline),
            JobLine::Dispatch(_) => DueLine::any_figure(Key::Dispatch),
            JobLine::Run(_, _) => DueLine::any_figure(Key::Run),
            JobLine::Messages => DueLine::ranged(Key::Messages, 0, MESSAGES as u64),
            JobLine::From(_) => DueLine::any_figure(Key::From),
            JobLine::To(_) => DueLine::any_figure(Key::To),
            JobLine::Volume(_) => DueLine::any_figure(Key::Volume),
        }
    }

    fn after(self, machines: u64, figure: u64) -> Option<Self> {
        match self {
            JobLine::Number => Some(JobLine::Scheduling),
            JobLine::Scheduling => Some(JobLine::Tasks),
            JobLine::Tasks => Some(JobLine::Deadline(figure - 1)),
            JobLine::Deadline(left) => Some(JobLine::Dispatch(left)),
            JobLine::Dispatch(left) => Some(JobLine::Run(left, machines - 1)),
            JobLine::Run(left, runs) => after_run(left, runs),
            JobLine::Messages => with_messages(figure),
            JobLine::From(left) => Some(JobLine::To(left)),
            JobLine::To(left) => Some(JobLine::Volume(left)),
            JobLine::Volume(left) => with_messages(left),
        }
    }

    ghost due_there = { line_due };
}
