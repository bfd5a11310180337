// Withdrawals and clock moves: rows that leave.
ghost use Rattle.rules.specs.Refusals.{withdraws, advances};
ghost use Rattle.timetable.specs.Marks.{SoonestLeft};
ghost use Rattle.timetable.specs.Timetables.{AskTimetable, WithdrawalIs, AdvancementIs, AskTakeOut, TakenOutIs, CallIs};

use crate::Timetable;
use rules::HORIZON;
use rules::answers::{Admission, Refusal};
use timeline::columns::keep_staying;
use timeline::leaving::Leaving;
use timeline::notes::{Note, cost_of_leaving};

impl Timetable {
    // Refusals 9 and 10: the job is not held, or one of its rows starts at or before the clock. Else its number as rows carry it, and where its first row
    // stands.
    fn withdrawal(&self, number: u64) -> Result<(u16, usize), Refusal>
        ensures { WithdrawalIs self.now number result }
    {
        let Ok(job) = u16::try_from(number) else {
            return Err(Refusal::NotHeld);
        };
        let Some(from) = self.place_of(job) else {
            return Err(Refusal::NotHeld);
        };
        if self.has_begun(job, from) {
            return Err(Refusal::Begun);
        }
        Ok((job, from))
    }

    // Refusals 11 and 12: a clock that goes back, or too far.
    fn advancement(&self, tick: u64) -> Result<(), Refusal>
        ensures { AdvancementIs self.now.clock tick result }
    {
        if tick < self.clock {
            return Err(Refusal::ClockBack);
        }
        if HORIZON < tick {
            return Err(Refusal::PastHorizon);
        }
        Ok(())
    }

    // The rows that leave are taken out, and their cost off the total.
    fn take_out(&mut self, leaving: &Leaving)
        requires { AskTakeOut self.old leaving.now }
        ensures { TakenOutIs self.old leaving.now.marks self.new }
    {
        self.total -= cost_of_leaving(&self.notes, leaving);
        self.line.keep_staying(leaving);
        keep_staying(&mut self.jobs, leaving, 0);
        keep_staying(&mut self.notes, leaving, Note::default());
    }

    // The soonest end of the jobs that are left when one with this last finish has gone: the one before, unless it was that.
    fn soonest_left(&self, last: u64) -> u64
        ensures { SoonestLeft self.now.notes self.now.line.count self.now.soonest last result }
    {
        if self.soonest < last {
            return self.soonest;
        }
        self.soonest_end()
    }

    // The rows of a job leave, unless it is not held or has begun. No row is added.
    pub fn withdraw(&mut self, number: u64) -> Result<Admission, Refusal>
        requires { AskTimetable self.old }
        ensures { CallIs (withdraws number) self.old self.new result }
    {
        let (job, from) = self.withdrawal(number)?;
        let last = self.notes[from].last;
        let leaving = self.rows_of(job, from);
        self.take_out(&leaving);
        self.soonest = self.soonest_left(last);
        Ok(Admission::default())
    }

    // The clock is set, and jobs that have ended leave. Before the soonest end none has, and no row is looked at. No row is added.
    pub fn advance(&mut self, tick: u64) -> Result<Admission, Refusal>
        requires { AskTimetable self.old }
        ensures { CallIs (advances tick) self.old self.new result }
    {
        self.advancement(tick)?;
        self.clock = tick;
        if tick < self.soonest {
            return Ok(Admission::default());
        }
        let leaving = self.rows_ended(tick);
        self.take_out(&leaving);
        self.soonest = self.soonest_end();
        Ok(Admission::default())
    }
}
