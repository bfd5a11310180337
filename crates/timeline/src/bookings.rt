// A row but for its job, as the timeline has it.
ghost use Rattle.timeline.specs.Bookings.{RowIs};

use crate::TICKS;
use rules::{Holder, Row};

// Where the row begins and ends on the timeline, what holds it, and its cost.
#[derive(Clone, Copy, PartialEq, Eq, Default)]
pub struct Booking {
    pub begin: u64,
    pub end: u64,
    pub holder: Holder,
    pub cost: u64,
}

impl Booking {
    // The row of a job that it is.
    pub fn row(self, job: u16) -> Row
        ensures { RowIs self job result }
    {
        Row {
            holder: self.holder,
            job,
            start: (self.begin % TICKS) as u32,
            finish: (self.end % TICKS) as u32,
            cost: self.cost,
        }
    }
}
