// The calls: each is made over the timetable, and then the rows follow, in the order in which they were admitted.
ghost use Rattle.reservation.specs.Calls.{Submits, Withdraws, Advances};
ghost use Rattle.reservation.specs.Parts.{AskMore, MoreIs, AskStay, StayIs, AskLeft, LeftIs};

use crate::{Register, Reply};
use admission::submit;
use placement::own::{Entry, Own};
use rules::answers::{Admission, Refusal};
use rules::{Job, ROWS, Row};
use timetable::Timetable;

// The rows with those of an admitted job behind them. By index, since no clause says what became of rows after an adapter of `iter_mut`.
fn with_rows(held: [Row; ROWS], count: usize, own: &[Entry], job: u16) -> [Row; ROWS]
    requires { AskMore held count own.now job }
    ensures { MoreIs held count own.now job result }
{
    let mut rows = held;
    for (i, entry) in own.iter().enumerate() {
        rows[count + i] = entry.booking.row(job);
    }
    rows
}

// The rows whose jobs are still held.
fn still_held(held: [Row; ROWS], count: usize, timetable: &Timetable) -> [Row; ROWS]
    requires { AskStay held count timetable.now }
    ensures { StayIs held count timetable.now result }
{
    let mut rows = [Row::default(); ROWS];
    for (kept, row) in held[..count]
        .iter()
        .filter(|row| timetable.is_held(row.job))
        .enumerate()
    {
        rows[kept] = *row;
    }
    rows
}

impl Register {
    // A job whose every task has a good trial at its turn joins, with the rows of those trials.
    pub fn submit(self, job: Job) -> Reply
        ensures { Submits self job result }
    {
        let mut timetable = self.timetable;
        let mut own = Own::new();
        let answer = submit(&mut timetable, &self.setup, &job, &mut own);
        if answer.is_err() {
            return Reply {
                answer,
                register: self,
            };
        }
        let count = self.timetable.line.count();
        let rows = with_rows(self.rows, count, own.as_slice(), job.number as u16);
        let register = Register {
            setup: self.setup,
            timetable,
            rows,
        };
        Reply { answer, register }
    }

    // The register that a removal over the timetable leaves: if it was refused, the very same.
    fn left_after(self, timetable: Timetable, answer: Result<Admission, Refusal>) -> Reply
        requires { AskLeft self timetable answer }
        ensures { LeftIs self timetable answer result }
    {
        if answer.is_err() {
            return Reply {
                answer,
                register: self,
            };
        }
        let rows = still_held(self.rows, self.timetable.line.count(), &timetable);
        let register = Register {
            setup: self.setup,
            timetable,
            rows,
        };
        Reply { answer, register }
    }

    // A job that is held and has not begun leaves. One function for this and the next would take the step with a contract of its own, and be no plainer.
    pub fn withdraw(self, number: u64) -> Reply
        ensures { Withdraws self number result }
    {
        let mut timetable = self.timetable;
        let answer = timetable.withdraw(number);
        self.left_after(timetable, answer)
    }

    // The clock is set, and jobs that have ended leave.
    pub fn advance(self, tick: u64) -> Reply
        ensures { Advances self tick result }
    {
        let mut timetable = self.timetable;
        let answer = timetable.advance(tick);
        self.left_after(timetable, answer)
    }
}
