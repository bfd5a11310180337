// A row, and a list of rows in memory of a fixed size.
ghost use Rattle.std.specs.Prelude.{◌≤◌};

use crate::machines::{Link, Machine, Resource};

// What holds a row: a task on a machine, or a message on a link, from one task to another.
#[derive(Clone, Copy, PartialEq, Eq)]
pub enum RefHolder {
    Task {
        machine: Machine,
        task: u64,
    },
    Message {
        link: Link,
        sender: u64,
        receiver: u64,
    },
}

// A booking. Its span holds its start and not its finish.
#[derive(Clone, Copy, PartialEq, Eq, Default)]
pub struct RefRow {
    pub holder: RefHolder,
    pub job: u64,
    pub start: u64,
    pub finish: u64,
    pub cost: u64,
}

// That of a place which no row has taken. A derive needs a case that holds nothing.
impl Default for RefHolder {
    fn default() -> Self {
        RefHolder::Task {
            machine: Machine::One,
            task: 0,
        }
    }
}

impl RefHolder {
    pub(crate) fn resource(self) -> Resource {
        match self {
            RefHolder::Task { machine, .. } => Resource::Machine(machine),
            RefHolder::Message { link, .. } => Resource::Link(link),
        }
    }
}

impl RefRow {
    pub(crate) fn holds(&self, tick: u64) -> bool {
        (self.start..self.finish).contains(&tick)
    }

    // The row shares a tick with the span from start to finish.
    pub(crate) fn meets(&self, start: u64, finish: u64) -> bool {
        self.start < finish && start < self.finish
    }
}

// Up to so many rows, in order. An ArrayVec would do, but it is not Copy, and books and plans are copied.
#[derive(Clone, Copy)]
pub struct Rows<const CAPACITY: usize> {
    places: [RefRow; CAPACITY],
    count: usize,
    ghost within: { count ≤ CAPACITY },
}

impl<const CAPACITY: usize> Rows<CAPACITY> {
    pub fn new() -> Self {
        Rows {
            places: [RefRow::default(); CAPACITY],
            count: 0,
        }
    }

    pub fn as_slice(&self) -> &[RefRow] {
        &self.places[..self.count]
    }

    pub fn has_room_for(&self, more: usize) -> bool {
        more <= CAPACITY - self.count
    }

    // A full list is left as it is: a job has a row for each task and message at most, and a book is asked for room first.
    pub fn push(&mut self, row: RefRow) {
        if self.count < CAPACITY {
            self.places[self.count] = row;
            self.count += 1;
        }
    }

    // Leaves the rows that the caller keeps, in order.
    pub fn retain<F: Fn(&RefRow) -> bool>(&mut self, keeps: F)
        requires { F.IsAlwaysCallable keeps }
    {
        let mut left = Self::new();
        for row in self.as_slice() {
            if keeps(row) {
                left.push(*row);
            }
        }
        *self = left;
    }

    pub fn cost(&self) -> u64 {
        self.as_slice()
            .iter()
            .fold(0, |sum: u64, row| sum.saturating_add(row.cost))
    }
}
