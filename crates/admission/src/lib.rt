// Submissions: refusals 1 to 8 in their order, or the job's rows join the timetable.
#![tactic(auto)]

ghost use Rattle.std.specs.Prelude.{◌+◌, ◌≤◌, length};
ghost use Rattle.admission.specs.Submitted.{AskTested, TestedIs, AskUndo, Undone, AskJudged, JudgedIs};
ghost use Rattle.admission.specs.Submitted.{LastIs, AskJoin, JoinedIs, AskSubmit, SubmitIs};

use placement::own::{Entry, Own};
use placement::place::place;
use rules::answers::{Admission, Refusal};
use rules::{Job, ROWS, Setup};
use screening::{first_infeasible, screened};
use timeline::columns::insert_at;
use timeline::line::Timeline;
use timeline::notes::Note;
use timeline::{SPANS, TICKS};
use timetable::Timetable;

// The first of refusals 1 to 6, which need no placing.
fn tested(timetable: &Timetable, setup: &Setup, job: &Job) -> Result<(), Refusal>
    requires { AskTested timetable.now setup.now }
    ensures { TestedIs timetable.now setup.now job.now result }
{
    let machines = setup.table.machines as usize;
    screened(job, machines)?;
    if timetable.is_held(job.number as u16) {
        return Err(Refusal::Held);
    }
    match first_infeasible(job, machines, timetable.clock) {
        Some(task) => Err(Refusal::Infeasible(task)),
        None => Ok(()),
    }
}

// Takes the spans of a job's own rows off the timeline again, the last one first.
fn undo(line: &mut Timeline<SPANS>, own: &Own)
    requires { AskUndo line.old own.now.items }
    ensures { Undone line.old own.now.items line.new }
{
    for entry in own.as_slice().iter().rev() {
        line.remove(entry.at);
    }
}

// The job placed, then refusals 7 and 8, or admission. If it is refused, the timeline is as it was.
fn judged(
    timetable: &mut Timetable,
    setup: &Setup,
    job: &Job,
    own: &mut Own,
) -> Result<Admission, Refusal>
    requires { AskJudged timetable.old setup.now job.now }
    ensures { JudgedIs timetable.old setup.now job.now timetable.new own.new.items result }
{
    let base = timetable.clock + job.scheduling;
    let held = timetable.line.count();
    let refusal = match place(setup, job, base, &mut timetable.line, own) {
        Ok(admission) if held + own.len() <= ROWS => return Ok(admission),
        Ok(_) => Refusal::NoRoom,
        Err(late) => Refusal::Missed(late.task),
    };
    undo(&mut timetable.line, own);
    Err(refusal)
}

// The last finish of a job's own rows.
fn last_of(own: &[Entry]) -> u64
    ensures { LastIs own.now result }
{
    own.iter()
        .map(|entry| entry.booking.end % TICKS)
        .max()
        .unwrap_or(0)
}

// The numbers and notes of a job's own rows, each put where its span went.
fn join(timetable: &mut Timetable, own: &Own, held: usize, job: u16, last: u64)
    requires { AskJoin timetable.old own.now.items held }
    ensures { JoinedIs timetable.old own.now.items held job last timetable.new }
{
    for (i, entry) in own.as_slice().iter().enumerate() {
        insert_at(&mut timetable.jobs, held + i, entry.at, job);
        let note = Note {
            holder: entry.booking.holder,
            cost: entry.booking.cost,
            last,
        };
        insert_at(&mut timetable.notes, held + i, entry.at, note);
    }
}

// Refusals 1 to 8, or admission: then the new rows are in `own`.
pub fn submit(
    timetable: &mut Timetable,
    setup: &Setup,
    job: &Job,
    own: &mut Own,
) -> Result<Admission, Refusal>
    requires { AskSubmit timetable.old setup.now }
    ensures { SubmitIs timetable.old setup.now job.now timetable.new own.new.items result }
{
    tested(timetable, setup, job)?;
    let held = timetable.line.count();
    let admission = judged(timetable, setup, job, own)?;
    let last = last_of(own.as_slice());
    join(timetable, own, held, job.number as u16, last);
    timetable.total += admission.cost;
    timetable.soonest = timetable.soonest.min(last);
    Ok(admission)
}
