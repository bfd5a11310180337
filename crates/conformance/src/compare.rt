// What the two schedulers answered and hold, compared figure by figure. Each function says whether two values are the same, or counts the differences.
use crate::convert::{converted_row, converted_seen, figures_of};
use reference::{Admission, Book, Link, Machine, RefRow, Refusal, Resource, Tables};
use reservation::Register;
use rules::tables::default_setup;
use rules::{Answer, Row, Seen, answers};
use std::array;

// What both answered to a call.
#[derive(Clone, Copy)]
pub struct Answers {
    pub ours: Result<answers::Admission, answers::Refusal>,
    pub theirs: Result<Admission, Refusal>,
}

impl Answers {
    pub fn figures(self) -> (Answer, Answer) {
        (Answer::from(self.ours), figures_of(self.theirs))
    }

    pub fn agree(self) -> bool {
        let (ours, theirs) = self.figures();
        ours == theirs
    }
}

// A row of ours that the second scheduler could not hold is like none of its rows.
fn same_row(ours: Row, theirs: Option<RefRow>) -> bool {
    converted_row(ours).is_some_and(|row| theirs == Some(row))
}

pub fn same_seen(ours: Seen, theirs: Result<Option<RefRow>, Refusal>) -> bool {
    converted_seen(ours) == Some(theirs)
}

// The clock, the total and the count of rows.
pub fn states_apart(ours: Register, theirs: &Book) -> u64 {
    let apart = [
        ours.clock() != theirs.clock(),
        ours.total() != theirs.total(),
        ours.count() != theirs.rows().len(),
    ];
    apart.into_iter().filter(|differs| *differs).count() as u64
}

// The rows, up to the larger count.
pub fn rows_apart(ours: Register, theirs: &Book, count: usize) -> u64 {
    let others = theirs.rows();
    let apart = ours
        .rows()
        .into_iter()
        .enumerate()
        .take(count)
        .filter(|(i, row)| !same_row(*row, others.get(*i).copied()));
    apart.count() as u64
}

// The failure rates of the machines.
fn rates_apart(theirs: &Tables) -> u64 {
    let setup = default_setup();
    let apart = Machine::ALL
        .into_iter()
        .filter(|machine| setup.rate(machine.number()) != theirs.rate(Resource::Machine(*machine)))
        .count() as u64;
    apart.saturating_add(u64::from(setup.table.machines != 4))
}

// Every ordered pair of machines.
fn links() -> [Link; 16] {
    array::from_fn(|i| Link {
        from: Machine::ALL[i / 4],
        to: Machine::ALL[i % 4],
    })
}

// On how many links a figure of ours is not theirs.
fn links_apart<O: Fn(Link) -> u64, T: Fn(Link) -> u64>(ours: O, theirs: T) -> u64
    requires ours { O.IsAlwaysCallable ours }
    requires theirs { T.IsAlwaysCallable theirs }
{
    let apart = links()
        .into_iter()
        .filter(|link| ours(*link) != theirs(*link));
    apart.count() as u64
}

// The failure rates of the machines, and the times and failure rates of the links.
pub fn tables_apart(theirs: &Tables) -> u64 {
    let setup = default_setup();
    let times = links_apart(
        |link| setup.link_time(link.from.number(), link.to.number()),
        |link| theirs.link_time(link),
    );
    let rates = links_apart(
        |link| setup.link_rate(link.from.number(), link.to.number()),
        |link| theirs.rate(Resource::Link(link)),
    );
    rates_apart(theirs)
        .saturating_add(times)
        .saturating_add(rates)
}
