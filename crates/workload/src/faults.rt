// Figures out of range, for refusals 1 to 4, and figures at their limits.
// A number that is drawn is nothing else, so it is matched as it is.
use crate::draws::Draws;
use crate::limits::{LARGEST_TIME, LARGEST_VOLUME};
use rules::{DEFAULT_MACHINES, HORIZON, Job, LAST_JOB, MESSAGES, Message, TASKS, Task};

impl Draws {
    // A job with one fault, or with two: the first rule that it breaks answers. The keys of a fault are the twenty from its own on.
    pub(crate) fn with_faults(self, mut job: Job) -> Job {
        self.at(500).spoil(&mut job);
        if self.rarely(501, 3) {
            self.at(520).spoil(&mut job);
        }
        job
    }

    fn spoil(self, job: &mut Job) {
        match self.draw(2, 7) {
            0 => job.number = self.wrong_number(),
            1 => self.spoil_counts(job),
            2 => job.scheduling = self.too_large(LARGEST_TIME),
            3 | 4 => self.spoil_task(job),
            _ => self.spoil_messages(job),
        }
    }

    fn wrong_number(self) -> u64 {
        match self.draw(3, 4) {
            0 => 0,
            1 => LAST_JOB + 1,
            2 => LAST_JOB + 1 + self.draw(4, 100_000),
            _ => u64::MAX,
        }
    }

    fn spoil_counts(self, job: &mut Job) {
        match self.draw(3, 6) {
            0 => job.taskcount = 0,
            1 => job.taskcount = TASKS as u64 + 1,
            2 => job.taskcount = u64::MAX,
            3 => job.messagecount = MESSAGES as u64 + 1,
            4 => job.messagecount = MESSAGES as u64 + 1 + self.draw(4, 1_000),
            _ => job.messagecount = u64::MAX,
        }
    }

    // Just above the limit, somewhat above it, or the greatest number.
    fn too_large(self, limit: u64) -> u64 {
        let above = limit.saturating_add(1);
        match self.draw(5, 3) {
            0 => above,
            1 => above.saturating_add(self.draw(6, 1_000_000)),
            _ => u64::MAX,
        }
    }

    fn spoil_task(self, job: &mut Job) {
        let at = self.draw(7, job.taskcount) as usize;
        if let Some(task) = job.tasks.get_mut(at) {
            self.spoil_figure(task);
        }
    }

    // A figure of the task is out of range.
    fn spoil_figure(self, task: &mut Task) {
        match self.draw(8, 6) {
            0 => task.deadline = 0,
            1 => task.deadline = self.too_large(HORIZON),
            2 => task.dispatch = self.too_large(LARGEST_TIME),
            _ => self.set_run(task, 9, self.too_large(LARGEST_TIME)),
        }
    }

    // The run time of one machine, which has this key.
    fn set_run(self, task: &mut Task, key: u64, run: u64) {
        let machine = self.draw(key, DEFAULT_MACHINES as u64) as usize;
        if let Some(entry) = task.runs.get_mut(machine) {
            *entry = run;
        }
    }

    fn spoil_messages(self, job: &mut Job) {
        let at = self.draw(7, job.messagecount) as usize;
        if job.messagecount != 0 && self.rarely(8, 4) {
            disorder(job, at);
        } else {
            self.spoil_message(job, at);
        }
    }

    // The message at a place breaks its range; a job of no messages has one then.
    fn spoil_message(self, job: &mut Job, at: usize) {
        if let Some(message) = job.messages.get_mut(at) {
            self.spoil_ends(message, job.taskcount);
        }
        job.messagecount = job.messagecount.max(1);
    }

    fn spoil_ends(self, message: &mut Message, taskcount: u64) {
        match self.draw(9, 8) {
            0 => message.sender = 0,
            1 => message.sender = message.receiver,
            2 => message.sender = message.receiver.saturating_add(1),
            3 => message.sender = u64::MAX,
            4 => message.receiver = taskcount.saturating_add(1),
            5 => message.receiver = 0,
            6 => message.receiver = u64::MAX,
            _ => message.volume = self.too_large(LARGEST_VOLUME),
        }
    }

    // A job with one figure at an end of its range.
    pub(crate) fn with_limits(self, mut job: Job) -> Job {
        match self.draw(540, 6) {
            0 => job.number = LAST_JOB,
            1 => job.scheduling = LARGEST_TIME,
            2 => {
                let at = self.draw(541, job.messagecount) as usize;
                if let Some(message) = job.messages.get_mut(at) {
                    message.volume = LARGEST_VOLUME;
                }
            }
            _ => {
                let at = self.draw(541, job.taskcount) as usize;
                if let Some(task) = job.tasks.get_mut(at) {
                    self.set_limit(task);
                }
            }
        }
        job
    }

    fn set_limit(self, task: &mut Task) {
        match self.draw(542, 4) {
            0 => task.deadline = 1,
            1 => task.deadline = HORIZON,
            2 => task.dispatch = LARGEST_TIME,
            _ => self.set_run(task, 543, LARGEST_TIME),
        }
    }
}

// A message and the next one change places, or the same stands twice where there is no next one.
fn disorder(job: &mut Job, at: usize) {
    let next = at.saturating_add(1);
    let messages = &mut job.messages[..];
    if messages.len() <= next {
        return;
    }
    if job.messagecount == next as u64 {
        messages[next] = messages[at];
        job.messagecount += 1;
    } else {
        messages.swap(at, next);
    }
}
