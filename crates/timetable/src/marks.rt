// Whether a job is held and whether it has begun, which rows are to leave, and the row at an index.
ghost use Rattle.std.specs.Prelude.{◌≡◌, ◌≤◌, ◌<◌};
ghost use Rattle.timetable.specs.Marks.{HeldIs, PlaceOf, AskBegun, BegunIs, RowsOfIs, RowsEndedIs, SoonestIs};
ghost use Rattle.timetable.specs.Timetables.{RowAtIs};

use crate::{NEVER, Timetable};
use rules::Row;
use rules::arrays::filled;
use timeline::TICKS;
use timeline::bookings::Booking;
use timeline::leaving::Leaving;

impl Timetable {
    // Whether some row carries the number.
    pub fn is_held(&self, job: u16) -> bool
        ensures { HeldIs self.now.jobs self.now.line.count job result }
    {
        self.jobs[..self.line.count()].contains(&job)
    }

    // The index of the first row that carries the number.
    pub(crate) fn place_of(&self, job: u16) -> Option<usize>
        ensures { PlaceOf self.now.jobs self.now.line.count job result }
    {
        self.jobs[..self.line.count()]
            .iter()
            .position(|held| *held == job)
    }

    // Whether a row of the job starts at or before the clock. None stands before the index given.
    pub(crate) fn has_begun(&self, job: u16, from: usize) -> bool
        requires { AskBegun self.now job from }
        ensures { BegunIs self.now job result }
    {
        (from..self.line.count()).any(|i| self.jobs[i] == job
            && self.line.span(i).0 % TICKS <= self.clock)
    }

    // The rows of a job. None stands before the index given.
    pub(crate) fn rows_of(&self, job: u16, from: usize) -> Leaving
        requires within { from ≤ self.now.line.count }
        requires before { AskBegun self.now job from }
        ensures rows { RowsOfIs self.now.jobs self.now.line.count job result.marks }
        ensures count { result.count ≡ self.now.line.count }
    {
        let count = self.line.count();
        Leaving {
            marks: filled(count, |i| self.jobs[i] == job),
            count,
            from,
        }
    }

    // The rows of jobs that have ended: each note has the last finish of its job.
    pub(crate) fn rows_ended(&self, tick: u64) -> Leaving
        ensures rows { RowsEndedIs self.now.notes self.now.line.count tick result.marks }
        ensures count { result.count ≡ self.now.line.count }
    {
        let count = self.line.count();
        Leaving::new(filled(count, |i| self.notes[i].last <= tick), count)
    }

    // The soonest tick at which a job has ended.
    pub(crate) fn soonest_end(&self) -> u64
        ensures { SoonestIs self.now.notes self.now.line.count result }
    {
        self.notes[..self.line.count()]
            .iter()
            .fold(NEVER, |soonest, note| soonest.min(note.last))
    }

    // The row at an index of the timeline.
    pub fn row(&self, at: usize) -> Row
        requires { at < self.now.line.count }
        ensures { RowAtIs self.now at result }
    {
        let (begin, end) = self.line.span(at);
        let note = self.notes[at];
        let booking = Booking {
            begin,
            end,
            holder: note.holder,
            cost: note.cost,
        };
        booking.row(self.jobs[at])
    }
}
