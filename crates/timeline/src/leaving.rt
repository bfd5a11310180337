// Which rows leave.
ghost use Rattle.std.specs.Prelude.{◌≡◌, ◌≤◌, length};
ghost use Rattle.timeline.specs.RowLine.{spans_room};
ghost use Rattle.timeline.specs.TakenOut.{FirstLeaving};

use crate::SPANS;

// Of the first so many rows those that leave are marked. None does before the index `from`.
#[derive(Clone, Copy)]
pub struct Leaving {
    pub marks: [bool; SPANS],
    pub count: usize,
    pub from: usize,
    ghost long: { length marks ≡ spans_room },
    ghost few: { count ≤ spans_room },
    ghost first: { FirstLeaving marks count from },
}

impl Leaving {
    pub fn new(marks: [bool; SPANS], count: usize) -> Leaving
        requires { count ≤ spans_room }
        ensures marks { result.marks ≡ marks }
        ensures count { result.count ≡ count }
    {
        let from = marks[..count]
            .iter()
            .position(|leaves| *leaves)
            .unwrap_or(count);
        Leaving { marks, count, from }
    }
}
