// The choice among the machines: the good trial of lowest cost, then of earliest start, then of lowest machine.
ghost use Rattle.drcd.specs.Choice.{AskChoose, ChoiceIs};

use crate::inputs::Inputs;
use crate::{Attempt, Scene, Starts, TaskTurn};
use rules::{Job, MESSAGES, Setup};
use timeline::SPANS;
use timeline::line::Timeline;

// The trial that is kept, and its machine.
#[derive(Clone, Copy, PartialEq, Eq)]
pub struct Kept {
    pub machine: u64,
    pub best: Attempt,
}

// The trial that is kept in a turn, if any machine finishes the task in time; the starts of its messages go to `starts`.
pub fn choose(
    setup: &Setup,
    job: &Job,
    inputs: &Inputs,
    line: &Timeline<SPANS>,
    turn: TaskTurn,
    starts: &mut Starts,
) -> Option<Kept>
    requires { AskChoose setup.now job.now inputs.now.items line.now turn }
    ensures { ChoiceIs setup.now job.now inputs.now.items line.now turn result starts.new }
{
    let scene = Scene {
        setup,
        inputs,
        line,
        turn,
    };
    let task = &job.tasks[turn.t];
    let machines = setup.table.machines as usize;
    let mut kept: Option<Kept> = None;
    let mut tried = [None; MESSAGES];
    for (machine, &run) in (1..).zip(&task.runs[..machines]) {
        if run == 0 {
            continue;
        }
        let best = scene.attempt(machine, run, &mut tried);
        if task.deadline < best.finish {
            continue;
        }
        // Machines are tried in ascending order, so at equal cost and start the one kept stays.
        if let Some(Kept { best: other, .. }) = &kept
            && (other.cost, other.start) <= (best.cost, best.start)
        {
            continue;
        }
        kept = Some(Kept { machine, best });
        *starts = tried;
    }
    kept
}
