// A timetable: the spans of a register's rows on the timeline, for each the number of its job and what is noted of it, the clock and the total; and withdrawals
// and clock moves over it. A call that is refused leaves it as it was.
#![tactic(auto)]

mod calls;
mod marks;

ghost use Rattle.std.specs.Prelude.{◌≡◌};
ghost use Rattle.timetable.specs.Timetables.{timetable_fresh};

use rules::HORIZON;
use timeline::SPANS;
use timeline::line::Timeline;
use timeline::notes::Note;

// Past every tick that a call may name: the soonest end where no job is held. It is no `Option`, since it is the least of no ticks: a search starts at it.
pub const NEVER: u64 = HORIZON + 1;

// The spans, the number of each one's job, what is noted of each, the clock, the total of the rows' costs, and the soonest tick at which a job has ended.
// What is not used is blank. The numbers of jobs are a column of their own: within the notes, the test whether a job is held took six times as long.
// That they agree is asked by each call, and is no invariant of the type. While a submission places its spans, the line is longer than the notes.
#[derive(Clone, Copy)]
pub struct Timetable {
    pub line: Timeline<SPANS>,
    pub jobs: [u16; SPANS],
    pub notes: [Note; SPANS],
    pub clock: u64,
    pub total: u64,
    pub soonest: u64,
}

impl Timetable {
    // That of a fresh register.
    pub fn new() -> Self
        ensures { result ≡ timetable_fresh }
    {
        Timetable {
            line: Timeline::new(),
            jobs: [0; SPANS],
            notes: [Note::default(); SPANS],
            clock: 0,
            total: 0,
            soonest: NEVER,
        }
    }
}
