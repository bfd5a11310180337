// The register for programs in other languages. A slice passes as a pointer and a length, an array and a number that is lent as a pointer.
#![tactic(auto)]

ghost use Rattle.texts.specs.Reader.{default_machines};
ghost use Rattle.texts.specs.Forms.{written};
ghost use Rattle.texts.specs.JobText.{job_form};
ghost use Rattle.texts.specs.Writer.{WritesSo, unfilled_number};
ghost use Rattle.script.specs.Contract.{Runs};

use rules::DEFAULT_MACHINES;
use script::{OUTPUT, run};
use texts::writer::write_figures;

// Writes what the program `register` prints for an input, and answers how many bytes that is.
#[unsafe(no_mangle)]
pub extern "C" fn register_run(input: &[u8], output: &mut [u8; OUTPUT]) -> usize
    ensures { Runs input.now output.old output.new result }
{
    run(input, output)
}

// Writes the text of a job, given as the figures of its lines in their order, from the output's start on. Answers 0, 20 or 21, since C has no
// `Result`; the text's length, or 0 in a refusal, goes to `length`.
#[unsafe(no_mangle)]
pub extern "C" fn register_write_job(figures: &[u64], output: &mut [u8], length: &mut usize) -> u64
    ensures { WritesSo (unfilled_number default_machines figures.now) (written (job_form default_machines) figures.now)
        output.old output.new result length.new }
{
    match write_figures(figures, DEFAULT_MACHINES as u64, output) {
        Ok(written) => {
            *length = written;
            0
        }
        Err(unwritten) => {
            *length = 0;
            unwritten.number()
        }
    }
}
