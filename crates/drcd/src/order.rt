// The order of the tasks: which wait, and which is next.
ghost use Rattle.drcd.specs.Given.{SomeJob};
ghost use Rattle.drcd.specs.Order.{WaitsIs, NextReadyIs};

use rules::{Job, TASKS};

// Where a task is placed: its machine, and its finish there.
#[derive(Clone, Copy, PartialEq, Eq)]
pub struct Spot {
    pub machine: u64,
    pub finish: u64,
}

// The spot of each task that is placed, by its index.
pub type Spots = [Option<Spot>; TASKS];

// The tasks that wait: some message into them has a sender that is not placed.
fn waiting(job: &Job, spots: &Spots) -> [bool; TASKS]
    requires { SomeJob job.now }
    ensures { WaitsIs job.now spots.now result }
{
    let mut waits = [false; TASKS];
    for message in job.messages() {
        if spots[message.sender as usize - 1].is_none() {
            waits[message.receiver as usize - 1] = true;
        }
    }
    waits
}

// Of the tasks that are ready the one with the earliest deadline, then the lowest number, by its index.
pub fn next_ready(job: &Job, spots: &Spots) -> Option<usize>
    requires { SomeJob job.now }
    ensures { NextReadyIs job.now spots.now result }
{
    let waits = waiting(job, spots);
    (0..job.taskcount as usize)
        .filter(|t| spots[*t].is_none() && !waits[*t])
        .min_by_key(|t| job.tasks[*t].deadline)
}
