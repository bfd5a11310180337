// A job, and what a submission refuses before any task is placed.
use crate::machines::Machine;
use crate::refusals::Refusal;
use crate::{HORIZON, MOST_MESSAGES, MOST_TASKS};

const LAST_JOB: u64 = 65_535;

// The longest scheduling, dispatch and run time.
const LONGEST: u64 = 1_000_000;

const LARGEST_VOLUME: u64 = 1_000;

// A run time of 0 says that the machine cannot run the task.
#[derive(Clone, Copy)]
pub struct RefTask {
    pub deadline: u64,
    pub dispatch: u64,
    pub runs: [u64; 4],
}

#[derive(Clone, Copy)]
pub struct RefMessage {
    pub sender: u64,
    pub receiver: u64,
    pub volume: u64,
}

// A job as submitted: the two counts may be out of range, which `check` refuses. Tasks are numbered from 1. Entries past the counts are no part
// of the job.
#[derive(Clone, Copy)]
pub struct RefJob {
    pub number: u64,
    pub scheduling: u64,
    pub taskcount: u64,
    pub tasks: [RefTask; MOST_TASKS],
    pub messagecount: u64,
    pub messages: [RefMessage; MOST_MESSAGES],
}

impl RefTask {
    // The run time on a machine that can run the task.
    pub(crate) fn run_on(&self, machine: Machine) -> Option<u64> {
        Some(self.runs[machine as usize]).filter(|run| *run != 0)
    }

    fn is_in_range(&self) -> bool {
        (1..=HORIZON).contains(&self.deadline)
            && self.dispatch <= LONGEST
            && self.runs.iter().all(|run| *run <= LONGEST)
    }

    // No machine that begins it at the clock ends it by its deadline.
    fn is_hopeless(&self, clock: u64) -> bool {
        !Machine::ALL
            .into_iter()
            .filter_map(|machine| self.run_on(machine))
            .any(|run| clock.saturating_add(run) <= self.deadline)
    }
}

impl RefMessage {
    fn is_in_range(&self, taskcount: u64) -> bool {
        1 <= self.sender
            && self.sender < self.receiver
            && self.receiver <= taskcount
            && self.volume <= LARGEST_VOLUME
    }
}

impl RefJob {
    pub fn tasks(&self) -> &[RefTask] {
        let count = (self.taskcount as usize).min(MOST_TASKS);
        &self.tasks[..count]
    }

    pub fn messages(&self) -> &[RefMessage] {
        let count = (self.messagecount as usize).min(MOST_MESSAGES);
        &self.messages[..count]
    }

    // Refusals 1 to 4, the first that holds.
    pub(crate) fn check(&self) -> Result<(), Refusal> {
        if !(1..=LAST_JOB).contains(&self.number) {
            return Err(Refusal::NumberOutOfRange);
        }
        if !self.counts_right() {
            return Err(Refusal::CountOutOfRange);
        }
        if !self.figures_right() {
            return Err(Refusal::FigureOutOfRange);
        }
        if !self.messages_right() {
            return Err(Refusal::WrongMessage);
        }
        Ok(())
    }

    fn counts_right(&self) -> bool {
        (1..=MOST_TASKS as u64).contains(&self.taskcount)
            && self.messagecount <= MOST_MESSAGES as u64
    }

    fn figures_right(&self) -> bool {
        self.scheduling <= LONGEST && self.tasks().iter().all(RefTask::is_in_range)
    }

    // Every message is in its range, and after the one before it by receiver, then sender.
    fn messages_right(&self) -> bool {
        let messages = self.messages();
        messages
            .iter()
            .all(|message| message.is_in_range(self.taskcount))
            && messages
                .iter()
                .is_sorted_by(|a, b| (a.receiver, a.sender) < (b.receiver, b.sender))
    }

    // Refusal 6, for the first task that is hopeless.
    pub(crate) fn check_hope(&self, clock: u64) -> Result<(), Refusal> {
        for (number, task) in (1..).zip(self.tasks()) {
            if task.is_hopeless(clock) {
                return Err(Refusal::HopelessTask(number));
            }
        }
        Ok(())
    }
}
