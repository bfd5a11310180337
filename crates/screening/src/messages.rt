// Refusal 4: messages out of range or out of order.
ghost use Rattle.std.specs.Prelude.{◌≡◌, ◌≤◌};
ghost use Rattle.rules.specs.Words.{most_messages};
ghost use Rattle.rules.specs.Sequences.{precedes};
ghost use Rattle.rules.specs.Refusals.{message_order, bad_messages as bad_messages_of};
ghost use Rattle.screening.specs.Screens.{MessageOutsideIs};

use rules::{Job, Message};

// The largest volume.
const LARGEST: u64 = 1_000;

// An end that is no task of a job with so many, a sender not below its receiver, or too large a volume.
#[tactic(auto, unfolding(rules::specs::Refusals::message_out_of_range))]
fn message_outside(tasks: u64, msg: &Message) -> bool
    ensures { MessageOutsideIs tasks msg.now result }
{
    !(1..=tasks).contains(&msg.sender)
        || !(1..=tasks).contains(&msg.receiver)
        || msg.receiver <= msg.sender
        || LARGEST < msg.volume
}

// One message stands before another: by receiver, then by sender.
#[tactic(auto, unfolding(rules::specs::Sequences::precedes))]
fn stands_before(a: &Message, b: &Message) -> bool
    ensures { result ≡ precedes (message_order a.now) (message_order b.now) }
{
    (a.receiver, a.sender) < (b.receiver, b.sender)
}

pub fn bad_messages(job: &Job) -> bool
    requires { job.now.messagecount ≤ most_messages }
    ensures { result ≡ bad_messages_of job.now }
{
    let messages = job.messages();
    messages
        .iter()
        .any(|msg| message_outside(job.taskcount, msg))
        || !messages.is_sorted_by(stands_before)
}
