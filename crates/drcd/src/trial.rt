// A trial of one machine: the messages into the task by ascending sender, then the task itself. Nothing is booked: a trial is figures.
ghost use Rattle.std.specs.Prelude.{◌≡◌, length};
ghost use Rattle.rules.specs.Words.{most_messages};
ghost use Rattle.drcd.specs.Trials.{AskSend, SentIs, AskInputs, TriedIs, AskAttempt, AttemptIs};

use crate::inputs::Input;
use crate::{Attempt, Scene, Starts};
use rules::MESSAGES;
use rules::codes::link_number;
use timeline::TICKS;
use timeline::line::{Sought, Timeline};

// Where a message's row starts and finishes, and what that costs.
#[derive(Clone, Copy, PartialEq, Eq)]
pub struct Sent {
    pub start: u64,
    pub finish: u64,
    pub cost: u64,
}

// The last arrival of a trial's messages, and their cost.
#[derive(Clone, Copy, PartialEq, Eq)]
pub struct Arrivals {
    pub arrived: u64,
    pub cost: u64,
}

impl Scene<'_> {
    // Seeks the link time of a message to a machine beside the spans that are held and those of the messages tried before it, which it joins.
    fn send(self, tried: &mut Timeline<MESSAGES>, input: &Input, machine: u64) -> Sent
        requires { AskSend self.setup.now self.line.now tried.old input.now machine }
        ensures { SentIs self.entry.setup.now self.entry.line.now tried.old input.now machine tried.new result }
    {
        let len = self.setup.link_time(input.source, machine) * input.volume;
        let resource = link_number(input.source, machine);
        let sought = Sought {
            resource,
            from: input.done,
            len,
        };
        let start = self.line.least_beside(tried, sought);
        let begin = resource * TICKS + start;
        tried.insert(begin, begin + len);
        Sent {
            start,
            finish: start + len,
            cost: self.setup.link_rate(input.source, machine) * len,
        }
    }

    // The messages into the task, tried on a machine.
    fn try_inputs(self, machine: u64, starts: &mut Starts) -> Arrivals
        requires turn { AskInputs self.setup.now self.inputs.now.items self.line.now self.turn machine }
        requires long { length starts.old ≡ most_messages }
        ensures tried { TriedIs self.entry.setup.now self.entry.inputs.now.items self.entry.line.now self.entry.turn machine starts.new result }
        ensures long { length starts.new ≡ most_messages }
    {
        let mut tried = Timeline::new();
        let mut arrived = self.turn.release;
        let mut cost = 0;
        for (i, input) in self.inputs.as_slice().iter().enumerate() {
            if input.source == machine || input.volume == 0 {
                starts[i] = None;
                arrived = arrived.max(input.done);
                continue;
            }
            let sent = self.send(&mut tried, input, machine);
            starts[i] = Some(sent.start);
            arrived = arrived.max(sent.finish);
            cost += sent.cost;
        }
        Arrivals { arrived, cost }
    }

    // A trial of a machine that can run the task; `run` is its run time there.
    pub(crate) fn attempt(self, machine: u64, run: u64, starts: &mut Starts) -> Attempt
        requires turn { AskAttempt self.setup.now self.inputs.now.items self.line.now self.turn machine run }
        requires long { length starts.old ≡ most_messages }
        ensures attempt { AttemptIs self.entry.setup.now self.entry.inputs.now.items self.entry.line.now self.entry.turn machine run result starts.new }
        ensures long { length starts.new ≡ most_messages }
    {
        let Arrivals { arrived, cost } = self.try_inputs(machine, starts);
        let start = self.line.least_free(Sought {
            resource: machine,
            from: arrived,
            len: run,
        });
        Attempt {
            cost: cost + self.setup.rate(machine) * run,
            start,
            finish: start + run,
        }
    }
}
