// The steps of DRCD: which task is next, a trial of a machine for it, and the choice among the trials. What is held is the timeline.
#![tactic(auto)]

pub mod choice;
pub mod inputs;
pub mod order;
mod trial;

use crate::inputs::Inputs;
use rules::{MESSAGES, Setup};
use timeline::SPANS;
use timeline::line::Timeline;

// The turn of one task, by its index, with its release.
#[derive(Clone, Copy, PartialEq, Eq)]
pub struct TaskTurn {
    pub t: usize,
    pub release: u64,
}

// What every trial of a turn reads: the messages into its task, and all that is held and booked so far. `choose` puts it together, since the borrow checker does not
// cover one in `place`.
#[derive(Clone, Copy)]
pub(crate) struct Scene<'a> {
    setup: &'a Setup,
    inputs: &'a Inputs,
    line: &'a Timeline<SPANS>,
    turn: TaskTurn,
}

// A trial of a machine: its cost, and the task's start and finish.
#[derive(Clone, Copy, PartialEq, Eq)]
pub struct Attempt {
    pub cost: u64,
    pub start: u64,
    pub finish: u64,
}

// For each message into the task where its row starts, if it takes one. It is lent to trials: held in each, it would be copied from result to result.
pub type Starts = [Option<u64>; MESSAGES];
