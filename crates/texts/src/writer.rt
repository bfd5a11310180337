// The job writer: the text of a job, given as a struct or as a row of figures, into a lent buffer.
ghost use Rattle.texts.specs.Reader.{default_machines};
ghost use Rattle.texts.specs.Writer.{WritesFigures, WritesJob};
ghost use Rattle.texts.specs.Rows.{MachineCount};

use crate::forms::{Unwritten, write_form};
use crate::job::{FIGURES, job_figures};
use crate::job_lines::JobLine;
use rules::{DEFAULT_MACHINES, Job, MESSAGES, TASKS};

// Writes the lines of figures, which are judged first: those of a job's lines, one for each.
pub fn write_figures(figures: &[u64], machines: u64, output: &mut [u8]) -> Result<usize, Unwritten>
    requires { MachineCount machines }
    ensures { WritesFigures machines figures.now output.old output.new result }
{
    // No job has more lines.
    if FIGURES < figures.len() {
        return Err(Unwritten::Unwritable);
    }
    write_form(figures, JobLine::Number, machines, output)
}

// Writes the text of a job, for a table of so many machines. Its counts are judged before a row is filled, which has room for no more.
pub fn write_job_over(job: &Job, machines: u64, output: &mut [u8]) -> Result<usize, Unwritten>
    requires { MachineCount machines }
    ensures { WritesJob machines job.now output.old output.new result }
{
    if (TASKS as u64) < job.taskcount || (MESSAGES as u64) < job.messagecount {
        return Err(Unwritten::Unwritable);
    }
    let mut row = [0; FIGURES];
    let count = job_figures(&mut row, machines, job);
    write_figures(&row[..count], machines, output)
}

// The same for the default table.
pub fn write_job(job: &Job, output: &mut [u8]) -> Result<usize, Unwritten>
    ensures { WritesJob default_machines job.now output.old output.new result }
{
    write_job_over(job, DEFAULT_MACHINES as u64, output)
}
