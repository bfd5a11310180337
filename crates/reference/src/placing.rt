// Placing a job: DRCD, task by task, each on the machine of its best trial.
use crate::jobs::{RefJob, RefMessage, RefTask};
use crate::machines::{Link, Machine};
use crate::refusals::Refusal;
use crate::rows::{RefHolder, RefRow, Rows};
use crate::slots::Usage;
use crate::{Book, JOB_ROWS, MOST_TASKS};

// Where a task runs, and when it ends.
#[derive(Clone, Copy)]
struct Place {
    machine: Machine,
    finish: u64,
}

// A job on its way: its rows so far, in placing order; the places of its tasks, by number less 1; and the floor of the task placed last.
#[derive(Clone, Copy)]
struct Plan<'a> {
    book: &'a Book,
    job: &'a RefJob,
    rows: Rows<JOB_ROWS>,
    places: [Option<Place>; MOST_TASKS],
    floor: u64,
}

// A task on a machine that ends it by its deadline: the plan with its rows.
#[derive(Clone, Copy)]
struct Trial<'a> {
    start: u64,
    plan: Plan<'a>,
}

// The rows of a job, or refusal 7. Each turn places a task, until all are placed or one has no good trial.
pub fn placed(book: &Book, job: &RefJob) -> Result<Rows<JOB_ROWS>, Refusal> {
    let mut plan = Plan::new(book, job);
    for _ in job.tasks() {
        if let Some((number, task)) = plan.next_task() {
            plan.place(number, task)?;
        }
    }
    Ok(plan.rows)
}

impl<'a> Plan<'a> {
    // Nothing placed, and the floor before any dispatch time.
    fn new(book: &'a Book, job: &'a RefJob) -> Self {
        Plan {
            book,
            job,
            rows: Rows::new(),
            places: [None; MOST_TASKS],
            floor: book.clock().saturating_add(job.scheduling),
        }
    }

    // Among the tasks whose senders are all placed, the earliest deadline, then the lowest number.
    fn next_task(&self) -> Option<(u64, &'a RefTask)> {
        (1..)
            .zip(self.job.tasks())
            .filter(|(number, _)| self.can_place(*number))
            .min_by_key(|(_, task)| task.deadline)
    }

    // It has no place yet, and each task that sends to it has one.
    fn can_place(&self, number: u64) -> bool {
        let messages = self.job.messages();
        self.place_of(number).is_none()
            && messages
                .iter()
                .filter(|message| message.receiver == number)
                .all(|message| self.place_of(message.sender).is_some())
    }

    fn place_of(&self, number: u64) -> Option<Place> {
        let at = number.checked_sub(1)? as usize;
        self.places.get(at).copied().flatten()
    }

    fn set_place(&mut self, number: u64, place: Place) {
        if let Some(at) = number.checked_sub(1)
            && let Some(entry) = self.places.get_mut(at as usize)
        {
            *entry = Some(place);
        }
    }

    // The task's floor has the dispatch times of this job's tasks placed so far, its own included. The machines are tried from the same plan, and
    // the good trial of lowest cost is kept, then of earliest start, then of the lowest machine.
    fn place(&mut self, number: u64, task: &RefTask) -> Result<(), Refusal> {
        self.floor = self.floor.saturating_add(task.dispatch);
        let best = Machine::ALL
            .into_iter()
            .filter_map(|machine| self.trial(number, task, machine))
            .min_by_key(|trial| (trial.plan.rows.cost(), trial.start))
            .ok_or(Refusal::LateTask(number))?;
        *self = best.plan;
        Ok(())
    }

    // None where the machine cannot run the task, or does not end it by its deadline.
    fn trial(&self, number: u64, task: &RefTask, machine: Machine) -> Option<Trial<'a>> {
        let run = task.run_on(machine)?;
        let mut plan = *self;
        let ready = plan.send_inputs(number, machine);
        let holder = RefHolder::Task {
            machine,
            task: number,
        };
        let row = plan.add_row(holder, ready, run);
        if task.deadline < row.finish {
            return None;
        }
        let place = Place {
            machine,
            finish: row.finish,
        };
        plan.set_place(number, place);
        Some(Trial {
            start: row.start,
            plan,
        })
    }

    // Books a row for a holder, from the least free tick on that is not before ready. It costs its rate times its length.
    fn add_row(&mut self, holder: RefHolder, ready: u64, length: u64) -> RefRow {
        let resource = holder.resource();
        let usage = Usage {
            resource,
            held: self.book.rows(),
            found: self.rows.as_slice(),
        };
        let start = usage.least_free(ready, length);
        let row = RefRow {
            holder,
            job: self.job.number,
            start,
            finish: start.saturating_add(length),
            cost: self.book.tables().rate(resource).saturating_mul(length),
        };
        self.rows.push(row);
        row
    }

    // The messages into the task by ascending sender, which is the order that they stand in: a row counts for the next. It answers the latest of
    // the task's floor and their arrivals.
    fn send_inputs(&mut self, number: u64, machine: Machine) -> u64 {
        let mut ready = self.floor;
        for message in self.job.messages() {
            if message.receiver == number
                && let Some(sender) = self.place_of(message.sender)
            {
                ready = ready.max(self.send(message, sender, machine));
            }
        }
        ready
    }

    // From another machine and with a volume, a message takes a row of the link, for link time times volume, and arrives at its finish. Any other
    // takes none and arrives at its sender's finish.
    fn send(&mut self, message: &RefMessage, sender: Place, machine: Machine) -> u64 {
        if message.volume == 0 || sender.machine == machine {
            return sender.finish;
        }
        let link = Link {
            from: sender.machine,
            to: machine,
        };
        let holder = RefHolder::Message {
            link,
            sender: message.sender,
            receiver: message.receiver,
        };
        let time = self.book.tables().link_time(link);
        let length = time.saturating_mul(message.volume);
        self.add_row(holder, sender.finish, length).finish
    }
}
