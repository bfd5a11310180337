// The tally of submissions: the caller lends it, and a submission adds to it there.
#![tactic(auto)]

ghost use Rattle.std.specs.Prelude.{◌≡◌};
ghost use Rattle.tally.specs.Tallies.{counted, RatioIs, SubmitsCounted};

use reservation::{Register, Reply};
use rules::Job;

// How many submissions arrived, and how many of them were accepted.
#[derive(Clone, Copy, PartialEq, Eq, Default)]
pub struct Tally {
    pub arrived: u32,
    pub admitted: u32,
}

const MOST_COUNTED: u32 = u32::MAX;

impl Tally {
    // One submission more. With either counter at its limit neither moves.
    pub fn counted(self, accepted: bool) -> Tally
        ensures { result ≡ counted self accepted }
    {
        if self.arrived == MOST_COUNTED || self.admitted == MOST_COUNTED {
            return self;
        }
        Tally {
            arrived: self.arrived + 1,
            admitted: self.admitted + u32::from(accepted),
        }
    }
}

// The guarantee ratio in parts of 10,000, rounded down. There is none if nothing arrived, or less than was admitted.
pub fn guarantee_ratio(t: Tally) -> Option<u64>
    ensures { RatioIs t result }
{
    if t.arrived == 0 || t.arrived < t.admitted {
        return None;
    }
    Some(10_000 * u64::from(t.admitted) / u64::from(t.arrived))
}

// Submits a job, and counts the submission in the lent tally.
pub fn submit_counted(t: &mut Tally, register: Register, job: Job) -> Reply
    ensures { SubmitsCounted t.old register job t.new result }
{
    let reply = register.submit(job);
    *t = t.counted(reply.answer.is_ok());
    reply
}
