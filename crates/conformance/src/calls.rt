// Made-up calls: which one comes next, and what it asks for.
// A number that is drawn is nothing else, so it is matched as it is.
ghost use Rattle.std.specs.Prelude.{◌<◌, ◌^◌};

use reference::{Book, RefHolder, RefRow};
use reservation::Register;
use rules::Job;
use workload::drawn::Source;

// A made-up call.
#[derive(Clone, Copy)]
pub enum Made {
    Submit(Job),
    Withdraw(u64),
    Advance(u64),
    Look { machine: u64, tick: u64 },
}

// What a call is made from: the book as it stands, and what is drawn for the call.
#[derive(Clone, Copy)]
pub struct Maker<'a> {
    pub book: &'a Book,
    pub source: Source<'a>,
}

// A number that no job has.
const NO_JOB: u64 = 0;

// A number that no machine has.
const NO_MACHINE: u64 = 0;

impl Maker<'_> {
    pub fn call(self) -> Made {
        let Source { shape, draws } = self.source;
        if draws.draw(10, 16) < shape.submissions {
            return Made::Submit(self.source.job(self.book.clock()));
        }
        let kind = draws.draw(11, 16);
        if kind < shape.withdrawals {
            Made::Withdraw(self.number())
        } else if kind < shape.withdrawals.saturating_add(shape.advances) {
            Made::Advance(self.tick())
        } else {
            self.look()
        }
    }

    fn draw(self, key: u64, end: u64) -> u64
        ensures { result < 2 ^ 27 }
    {
        self.source.draws.draw(key, end)
    }

    // One of the rows held, if there is one.
    fn some_row(self, key: u64) -> Option<RefRow> {
        let rows = self.book.rows();
        rows.get(self.draw(key, rows.len() as u64) as usize)
            .copied()
    }

    // The number of a held job, any number, or one that no job can have. With no row held, number 0 is withdrawn.
    fn number(self) -> u64 {
        match self.draw(20, 16) {
            0..=9 => self.some_row(21).map_or(NO_JOB, |row| row.job),
            10 => NO_JOB,
            11 => 65_536,
            12 => u64::MAX,
            _ => 1 + self.draw(22, self.source.shape.numbers),
        }
    }

    // Where the clock is moved to.
    fn tick(self) -> u64 {
        let clock = self.book.clock();
        match self.draw(30, 16) {
            0 => clock.saturating_sub(1 + self.draw(31, 5)),
            1 => 0,
            2 => clock,
            3 => self.refused_tick(),
            4..=8 => self.tick_of_job(),
            _ => clock.saturating_add(1 + self.draw(32, self.source.shape.step)),
        }
    }

    // Above the horizon.
    fn refused_tick(self) -> u64 {
        match self.draw(33, 3) {
            0 => Register::HORIZON + 1,
            1 => u64::MAX,
            _ => Register::HORIZON + 1 + self.draw(34, 1_000_000),
        }
    }

    // The first start or the last finish of a job, a tick before it, or a row's own.
    fn tick_of_job(self) -> u64 {
        if !self.source.shape.jumps {
            return self.book.clock().saturating_add(1);
        }
        let how = self.draw(36, 6);
        let Some(row) = self.some_row(35) else {
            return tick_of_no_job(how);
        };
        match how {
            0 => self.first_start(row),
            1 => self.first_start(row).saturating_sub(1),
            2 => self.last_finish(row),
            3 => self.last_finish(row).saturating_sub(1),
            4 => row.start,
            _ => row.finish,
        }
    }

    // Of the job that holds the row.
    fn first_start(self, row: RefRow) -> u64 {
        self.book
            .rows()
            .iter()
            .filter(|other| other.job == row.job)
            .map(|other| other.start)
            .min()
            .unwrap_or(row.start)
    }

    fn last_finish(self, row: RefRow) -> u64 {
        self.book
            .rows()
            .iter()
            .filter(|other| other.job == row.job)
            .map(|other| other.finish)
            .max()
            .unwrap_or(row.finish)
    }

    // A machine and a tick to look at.
    fn look(self) -> Made {
        let draws = self.source.draws;
        if !draws.rarely(41, 2) {
            return Made::Look {
                machine: self.machine(),
                tick: self.any_tick(),
            };
        }
        // With no row held, a machine is looked at that there is not.
        let Some(row) = self.some_row(40) else {
            return Made::Look {
                machine: NO_MACHINE,
                tick: self.tick_beside(0, 0),
            };
        };
        Made::Look {
            machine: machine_of(row),
            tick: self.tick_beside(row.start, row.finish),
        }
    }

    // At the ends of a row, and beside them.
    fn tick_beside(self, start: u64, finish: u64) -> u64 {
        match self.draw(42, 5) {
            0 => start,
            1 => start.saturating_sub(1),
            2 => finish,
            3 => finish.saturating_sub(1),
            _ => start.saturating_add(1),
        }
    }

    // Machines 0 to 5, and others that there are not.
    fn machine(self) -> u64 {
        let how = self.draw(43, 8);
        match how {
            6 => 6 + self.draw(44, 1_000),
            7 => u64::MAX,
            _ => how,
        }
    }

    fn any_tick(self) -> u64 {
        let clock = self.book.clock();
        match self.draw(45, 8) {
            0 => 0,
            1 => clock,
            2 => u64::MAX,
            3 => clock.saturating_sub(self.draw(46, 20)),
            _ => clock.saturating_add(self.draw(46, self.source.shape.slack)),
        }
    }
}

// Where the clock is moved to while no row is held: far above the horizon, or to its start.
fn tick_of_no_job(how: u64) -> u64 {
    match how {
        0 => u64::MAX,
        1 => u64::MAX - 1,
        _ => 0,
    }
}

// The machine of a row, or the sending one of a link.
fn machine_of(row: RefRow) -> u64 {
    let machine = match row.holder {
        RefHolder::Task { machine, .. } => machine,
        RefHolder::Message { link, .. } => link.from,
    };
    machine.number()
}
