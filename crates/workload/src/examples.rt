// The jobs of document 01's worked examples, and jobs of one row and of three.
ghost use Rattle.std.specs.Prelude.{◌≡◌};

use builder::{alone, job, message, task};
use rules::Job;

// A to D, by their deadline.
pub fn job_a(deadline: u64) -> Job {
    alone(7, task(deadline, 1, [4, 5, 0, 2]))
}

pub fn job_e() -> Job {
    alone(8, task(20, 1, [4, 10, 4, 0]))
}

// H to J, by their second deadline and their volume.
pub fn job_h(deadline: u64, volume: u64) -> Job {
    let tasks = [task(20, 1, [4, 0, 0, 0]), task(deadline, 1, [0, 5, 0, 0])];
    job(7, &tasks, &[message(1, 2, volume)])
}

// K, by its number.
pub fn job_k(number: u64) -> Job {
    let tasks = [
        task(10, 0, [4, 0, 0, 0]),
        task(20, 0, [2, 0, 0, 0]),
        task(30, 0, [0, 5, 0, 0]),
    ];
    job(number, &tasks, &[message(1, 3, 2), message(2, 3, 2)])
}

// One row of cost 20: on machine 1, 2 or 3, whichever is free first.
pub fn one_row(number: u64) -> Job
    ensures { result.number ≡ number }
{
    alone(number, task(1_000_000, 1, [2, 5, 2, 1]))
}

// A row on machine 2, one on the link to machine 3, and one on machine 3.
pub fn three_rows(number: u64) -> Job
    ensures { result.number ≡ number }
{
    let tasks = [
        task(1_000_000, 1, [0, 7, 0, 0]),
        task(1_000_000, 1, [0, 0, 3, 0]),
    ];
    job(number, &tasks, &[message(1, 2, 4)])
}
