// A whole job placed, task by task.
ghost use Rattle.placement.specs.Placements.{AskPlace, PlacedIs};

use crate::append::append;
use crate::own::Own;
use drcd::TaskTurn;
use drcd::choice::choose;
use drcd::inputs::{Inputs, gather};
use drcd::order::{Spot, next_ready};
use rules::answers::Admission;
use rules::{Job, MESSAGES, Setup, TASKS};
use timeline::SPANS;
use timeline::line::Timeline;

// The task that has no good trial at its turn, and the rows before it with their cost.
#[derive(Clone, Copy, PartialEq, Eq)]
pub struct Late {
    pub task: u64,
    pub before: Admission,
}

// DRCD: one turn for each task, the next that is ready on the machine of the best trial. The timeline is that of the rows held. The job's own rows join it, and
// are in `own` then: all of them, or those before the task that is late.
pub fn place(
    setup: &Setup,
    job: &Job,
    base: u64,
    line: &mut Timeline<SPANS>,
    own: &mut Own,
) -> Result<Admission, Late>
    requires { AskPlace setup.now job.now base line.old }
    ensures { PlacedIs setup.now job.now base line.old line.new own.new.items result }
{
    own.clear();
    let mut spots = [None; TASKS];
    let mut inputs = Inputs::new();
    let mut starts = [None; MESSAGES];
    let mut cost = 0;
    // 01's floor. Between turns: the base, and the dispatch times of the tasks placed so far; each turn adds that of its own task.
    let mut release = base;
    for _ in 0..job.taskcount {
        let Some(t) = next_ready(job, &spots) else {
            break;
        };
        release += job.tasks[t].dispatch;
        gather(job, t, &spots, &mut inputs);
        let turn = TaskTurn { t, release };
        let Some(kept) = choose(setup, job, &inputs, line, turn, &mut starts) else {
            let rows = own.len() as u64;
            return Err(Late {
                task: t as u64 + 1,
                before: Admission { cost, rows },
            });
        };
        append(setup, &kept, &starts, &inputs, turn, line, own);
        spots[t] = Some(Spot {
            machine: kept.machine,
            finish: kept.best.finish,
        });
        cost += kept.best.cost;
    }
    Ok(Admission {
        cost,
        rows: own.len() as u64,
    })
}
