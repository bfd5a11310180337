// Which tasks of a drawn job send to which, and how much.
ghost use Rattle.std.specs.Prelude.{◌<◌, ◌≤◌};

use crate::drawn::Source;
use crate::draws::Draws;
use crate::shapes::Graph;
use builder::{message, with_message};
use rules::{Job, TASKS};

// The graph of a job, and what its messages are drawn from.
#[derive(Clone, Copy)]
pub struct Plan<'a> {
    pub taskcount: u64,
    graph: Graph,
    // The tasks in a row of a lattice.
    width: u64,
    source: Source<'a>,
    ghost has_width: { 0 < width },
}

impl<'a> Plan<'a> {
    // A lattice is a square where the shape allows so many tasks.
    pub fn drawn(source: Source<'a>) -> Self {
        let Source { shape, draws } = source;
        let graph = shape.graph.unwrap_or_else(|| Graph::drawn(draws));
        let width = 2 + draws.draw(3, 3);
        let square = width * width;
        let taskcount = if graph == Graph::Lattice && square <= shape.tasks {
            square
        } else {
            1 + draws.draw(7, shape.tasks)
        };
        Plan {
            taskcount,
            graph,
            width,
            source,
        }
    }

    // The job with the messages of the graph, by ascending receiver, then sender.
    pub fn with_messages(self, mut job: Job) -> Job {
        for receiver in 2..=self.taskcount.min(TASKS as u64) {
            job = self.with_inputs(job, receiver);
        }
        job
    }

    fn with_inputs(self, mut job: Job, receiver: u64) -> Job
        requires { receiver ≤ 16 }
    {
        let Source { shape, draws } = self.source;
        for sender in 1..receiver {
            let pair = draws.at(1_000 + sender + 32 * receiver);
            if self.sends(sender, receiver, pair) {
                let volume = pair.draw(1_000, shape.volume);
                job = with_message(job, message(sender, receiver, volume));
            }
        }
        job
    }

    fn sends(self, sender: u64, receiver: u64, pair: Draws) -> bool
        requires { sender < receiver }
    {
        let apart = receiver - sender;
        match self.graph {
            Graph::Independent => false,
            Graph::Chain => apart == 1,
            Graph::Fork => sender == 1,
            Graph::Join => receiver == self.taskcount,
            Graph::Tree => receiver / 2 == sender,
            // To the next task in its row, and to the one below it.
            Graph::Lattice => apart == self.width || (apart == 1 && sender % self.width != 0),
            Graph::Random => pair.draw(0, 8) < 3,
        }
    }
}

impl Graph {
    // A number that is drawn is nothing else, so it is matched as it is.
    fn drawn(draws: Draws) -> Self {
        match draws.draw(6, 8) {
            0 => Graph::Chain,
            1 => Graph::Fork,
            2 => Graph::Join,
            3 => Graph::Tree,
            4 => Graph::Lattice,
            5 => Graph::Random,
            _ => Graph::Independent,
        }
    }
}
