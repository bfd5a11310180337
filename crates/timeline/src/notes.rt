// What is noted of each span on the timeline.
ghost use Rattle.timeline.specs.Notes.{AskCosts, CostIs};

use crate::leaving::Leaving;
use rules::Holder;

// What holds the span, the cost of its row, and the last finish of its job.
#[derive(Clone, Copy, PartialEq, Eq, Default)]
pub struct Note {
    pub holder: Holder,
    pub cost: u64,
    pub last: u64,
}

// What the rows that leave have cost.
pub fn cost_of_leaving(notes: &[Note], leaving: &Leaving) -> u64
    requires { AskCosts notes.now leaving.now.count }
    ensures { CostIs notes.now leaving.now.marks leaving.now.count result }
{
    // None leaves before the first that does.
    let (from, count) = (leaving.from, leaving.count);
    let mut cost = 0;
    for (note, leaves) in notes[from..count].iter().zip(&leaving.marks[from..count]) {
        if *leaves {
            cost += note.cost;
        }
    }
    cost
}
