// The messages into the task of a turn, gathered once for all its trials.
ghost use Rattle.drcd.specs.Inputs.{AskGather, GatheredIs};

use crate::order::Spots;
use arrayvec::ArrayVec;
use rules::{Job, MESSAGES};

// A message into the task: its sender, the machine that the sender is placed on and the sender's finish there, and its volume.
#[derive(Clone, Copy, PartialEq, Eq, Default)]
pub struct Input {
    pub sender: u64,
    pub source: u64,
    pub done: u64,
    pub volume: u64,
}

pub type Inputs = ArrayVec<Input, MESSAGES>;

// Gathers the messages into the task at an index, in their order. At its turn all their senders are placed. The vector is lent: made here it would be set to
// zeros at each turn.
pub fn gather(job: &Job, t: usize, spots: &Spots, inputs: &mut Inputs)
    requires { AskGather job.now t spots.now }
    ensures { GatheredIs job.now t spots.now inputs.new.items }
{
    inputs.clear();
    for message in job.messages() {
        if message.receiver != t as u64 + 1 {
            continue;
        }
        let Some(spot) = spots[message.sender as usize - 1] else {
            continue;
        };
        inputs.push(Input {
            sender: message.sender,
            source: spot.machine,
            done: spot.finish,
            volume: message.volume,
        });
    }
}
