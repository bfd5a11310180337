// Jobs drawn from a seed and a shape.
// A number that is drawn is nothing else, so it is matched as it is.
use crate::draws::Draws;
use crate::graphs::Plan;
use crate::shapes::Shape;
use builder::over_machines;
use rules::{DEFAULT_MACHINES, HORIZON, Job, MACHINES, MESSAGES, Message, TASKS, Task};
use std::array;

// What a call's figures are drawn from: the shape bounds them.
#[derive(Clone, Copy)]
pub struct Source<'a> {
    pub shape: &'a Shape,
    pub draws: Draws,
}

impl Source<'_> {
    pub fn job(self, clock: u64) -> Job {
        let Source { shape, draws } = self;
        let job = self.job_in_range(clock);
        if shape.faults.is_some_and(|count| draws.rarely(1, count)) {
            draws.with_faults(job)
        } else if shape.limits.is_some_and(|count| draws.rarely(2, count)) {
            draws.with_limits(job)
        } else {
            job
        }
    }

    fn job_in_range(self, clock: u64) -> Job {
        let Source { shape, draws } = self;
        let plan = Plan::drawn(self);
        let figure = self.unused_figure();
        let unused = Message {
            sender: figure,
            receiver: figure,
            volume: figure,
        };
        let job = Job {
            number: 1 + draws.draw(4, shape.numbers),
            scheduling: draws.draw(5, shape.scheduling),
            taskcount: plan.taskcount,
            tasks: self.tasks(clock, plan.taskcount),
            messagecount: 0,
            messages: [unused; MESSAGES],
        };
        plan.with_messages(job)
    }

    // What stands past a job's counts, which is no part of it: nothing, or figures out of range.
    fn unused_figure(self) -> u64 {
        match self.draws.draw(8, 4) {
            0 => u64::MAX,
            1 => HORIZON + 1,
            _ => 0,
        }
    }

    // The deadlines fall later from task to task by the lag, and each by a draw of its own. A task's figures have the sixteen keys from its own on.
    fn tasks(self, clock: u64, taskcount: u64) -> [Task; TASKS] {
        let figure = self.unused_figure();
        let unused = Task {
            deadline: figure,
            dispatch: figure,
            runs: [figure; MACHINES],
        };
        let earliest = clock.saturating_add(self.shape.lead);
        array::from_fn(|i| {
            let place = i as u64;
            if taskcount <= place {
                return unused;
            }
            let lag = place.saturating_mul(self.shape.lag);
            self.at(100 + 16 * place)
                .task(earliest.saturating_add(lag), figure)
        })
    }

    // The same with keys counted from this one on.
    fn at(self, key: u64) -> Self {
        Source {
            draws: self.draws.at(key),
            ..self
        }
    }

    fn task(self, earliest: u64, unused: u64) -> Task {
        let Source { shape, draws } = self;
        let deadline = earliest.saturating_add(draws.draw(0, shape.slack));
        Task {
            deadline: deadline.clamp(1, HORIZON),
            dispatch: draws.draw(1, shape.dispatch),
            runs: over_machines(self.runs(), unused),
        }
    }

    // Some machine can run the task, but for one task in so many.
    fn runs(self) -> [u64; DEFAULT_MACHINES] {
        if self.shape.tied {
            return self.tied_runs();
        }
        if self.draws.rarely(3, 60) {
            return [0; DEFAULT_MACHINES];
        }
        let sure = self.draws.draw(2, 4);
        array::from_fn(|i| {
            let place = i as u64;
            self.at(4 + 2 * place).run(place == sure)
        })
    }

    fn run(self, sure: bool) -> u64 {
        let Source { shape, draws } = self;
        if !sure && draws.draw(0, 8) < shape.unable {
            0
        } else {
            1 + draws.draw(1, shape.run)
        }
    }

    // Run times that cost the same on every machine that can run the task.
    fn tied_runs(self) -> [u64; DEFAULT_MACHINES] {
        let unit = 1 + self.draws.draw(2, 3);
        match self.draws.draw(3, 5) {
            0 => [2 * unit, 5 * unit, 2 * unit, 0],
            1 => [10 * unit, 25 * unit, 10 * unit, 4 * unit],
            2 => [unit, 0, unit, 0],
            3 => [0, 25, 10, 4],
            _ => [5, 0, 5, 2],
        }
    }
}
