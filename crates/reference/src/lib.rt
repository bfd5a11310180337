// A second scheduler for the cluster register, written from document 01 alone and by another search than the register's: the least free tick
// of a machine or a link is the least among a few candidate ticks, each tested against every row. It is there to be compared with the register
// call by call, so it shares nothing with it: its types and its tables of rates and link times are its own.
//
// It is proved safe and ending, for every book and every job; what it answers is not specified, but that machines are numbered from 1 to 4.
// A sum or a product that would not fit stays at the largest number. Figures in their ranges come nowhere near: a tick is below 10^10, a cost below 10^12.
#![tactic(auto)]

mod jobs;
mod machines;
mod placing;
mod refusals;
mod rows;
mod slots;

pub use jobs::{RefJob, RefMessage, RefTask};
pub use machines::{Link, Machine, Resource, Tables};
use placing::placed;
pub use refusals::Refusal;
use rows::Rows;
pub use rows::{RefHolder, RefRow};

// The last tick that the clock can be moved to.
pub const HORIZON: u64 = 1_000_000_000;

const MOST_TASKS: usize = 16;

const MOST_MESSAGES: usize = 32;

// The most rows of a job: one for each task and each message.
const JOB_ROWS: usize = MOST_TASKS + MOST_MESSAGES;

// The most rows held.
const BOOK_ROWS: usize = 256;

// The register with its tables.
#[derive(Clone, Copy)]
pub struct Book {
    clock: u64,
    rows: Rows<BOOK_ROWS>,
    tables: Tables,
}

// What an accepted call costs, and how many rows it takes: nothing for a call that books none.
#[derive(Clone, Copy, PartialEq, Eq, Default)]
pub struct Admission {
    pub cost: u64,
    pub rows: u64,
}

impl Book {
    // Clock 0, no rows, and the tables of document 01.
    pub fn new() -> Self {
        Self::with_tables(Tables::new())
    }

    pub fn with_tables(tables: Tables) -> Self {
        Book {
            clock: 0,
            rows: Rows::new(),
            tables,
        }
    }

    pub fn clock(&self) -> u64 {
        self.clock
    }

    // In the order that they were placed in.
    pub fn rows(&self) -> &[RefRow] {
        self.rows.as_slice()
    }

    // The cost of all rows held.
    pub fn total(&self) -> u64 {
        self.rows.cost()
    }

    pub fn tables(&self) -> &Tables {
        &self.tables
    }

    // Refusals 1 to 8, in this order.
    pub fn submit(&mut self, job: &RefJob) -> Result<Admission, Refusal> {
        job.check()?;
        if self.rows().iter().any(|row| row.job == job.number) {
            return Err(Refusal::AlreadyHeld);
        }
        job.check_hope(self.clock)?;
        let found = placed(self, job)?;
        let rows = found.as_slice();
        if !self.rows.has_room_for(rows.len()) {
            return Err(Refusal::TooManyRows);
        }
        for row in rows {
            self.rows.push(*row);
        }
        Ok(Admission {
            cost: found.cost(),
            rows: rows.len() as u64,
        })
    }

    // 9: the job is not held. 10: a row of it starts at or before the clock.
    pub fn withdraw(&mut self, number: u64) -> Result<(), Refusal> {
        let first = self
            .rows()
            .iter()
            .filter(|row| row.job == number)
            .map(|row| row.start)
            .min()
            .ok_or(Refusal::NotHeld)?;
        if first <= self.clock {
            return Err(Refusal::AlreadyBegun);
        }
        self.rows.retain(|row| row.job != number);
        Ok(())
    }

    // 11: below the clock. 12: above the horizon. Then each job leaves whose every row ends at or before the new clock.
    pub fn advance(&mut self, tick: u64) -> Result<(), Refusal> {
        if tick < self.clock {
            return Err(Refusal::BeforeClock);
        }
        if HORIZON < tick {
            return Err(Refusal::AfterHorizon);
        }
        self.clock = tick;
        let held = self.rows;
        self.rows.retain(|row| {
            held.as_slice()
                .iter()
                .any(|other| other.job == row.job && tick < other.finish)
        });
        Ok(())
    }

    // 13: no such machine. Else the row of the machine that holds the tick, if there is one. Rows of one machine share no tick.
    pub fn look(&self, machine: u64, tick: u64) -> Result<Option<RefRow>, Refusal> {
        let resource = Resource::Machine(Machine::try_from(machine)?);
        Ok(
            self.rows()
                .iter()
                .find(|row| row.holder.resource() == resource && row.holds(tick))
                .copied(),
        )
    }
}

// 18: nothing arrived, or less than was admitted. The counters of a tally are at most 4,294,967,295, so a larger one is refused alike.
pub fn ratio(arrived: u64, admitted: u64) -> Result<u64, Refusal> {
    if arrived == 0 || u64::from(u32::MAX) < arrived || arrived < admitted {
        return Err(Refusal::NoRatio);
    }
    Ok(10_000 * admitted / arrived)
}
