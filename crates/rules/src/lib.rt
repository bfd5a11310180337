// The data types and limits of the cluster register. The rules themselves are the definitions of specs/, a file for each section of document 01.
#![tactic(auto)]

pub mod answers;
pub mod arrays;
pub mod codes;
mod jobs;
mod rows;
pub mod tables;

// The machines that a table has room for, and their ordered pairs.
pub const MACHINES: usize = 8;

// The machines of the default table.
pub const DEFAULT_MACHINES: usize = 4;

pub const PAIRS: usize = MACHINES * MACHINES;

pub const TASKS: usize = 16;

pub const MESSAGES: usize = 32;

// The most rows that a register holds.
pub const ROWS: usize = 256;

// The largest job number.
pub const LAST_JOB: u64 = 65_535;

// The last tick that a deadline or the clock may name.
pub const HORIZON: u64 = 1_000_000_000;

// A task of a job. The deadline is a tick of the clock; a run time of 0 says that the machine cannot run it.
#[derive(Clone, Copy, PartialEq, Eq, Default)]
pub struct Task {
    pub deadline: u64,
    pub dispatch: u64,
    pub runs: [u64; MACHINES],
}

// A message from one task of a job to another.
#[derive(Clone, Copy, PartialEq, Eq, Default)]
pub struct Message {
    pub sender: u64,
    pub receiver: u64,
    pub volume: u64,
}

// A job as submitted. Entries past the counts are no part of it. The counts stand beside the arrays, since a submitted count may be out of range, which refusal 2
// answers.
#[derive(Clone, Copy, PartialEq, Eq, Default)]
pub struct Job {
    pub number: u64,
    pub scheduling: u64,
    pub taskcount: u64,
    pub tasks: [Task; TASKS],
    pub messagecount: u64,
    pub messages: [Message; MESSAGES],
}

// What holds a row: a task on a machine, or a message on the link from one machine to another.
#[derive(Clone, Copy, PartialEq, Eq)]
pub enum Holder {
    TaskOn {
        machine: u8,
        task: u8,
    },
    MessageOn {
        source: u8,
        target: u8,
        sender: u8,
        receiver: u8,
    },
}

// A row: one booking. Its span holds its start and not its finish. The fields are as narrow as their ranges, since a register goes by value.
#[derive(Clone, Copy, PartialEq, Eq, Default)]
pub struct Row {
    pub holder: Holder,
    pub job: u16,
    pub start: u32,
    pub finish: u32,
    pub cost: u64,
}

// A call: a submission of a job, a withdrawal by the job's number, or a clock move to a tick.
#[derive(Clone, Copy, PartialEq, Eq)]
pub enum Call {
    Submit(Job),
    Withdraw(u64),
    Advance(u64),
}

// An answer by its four figures: number 0 or that of a refusal, the task that a refusal names, and the cost and count of new rows. It is no `Result`, since
// document 01 gives it these figures, and the program prints them.
#[derive(Clone, Copy, PartialEq, Eq)]
pub struct Answer {
    pub number: u64,
    pub task: u64,
    pub cost: u64,
    pub rows: u64,
}

// What a look finds on a machine at a tick. It is no `Result` of an `Option`: document 01 names a closed answer, which a request of 02 joins by a case.
#[derive(Clone, Copy, PartialEq, Eq)]
pub enum Seen {
    Idle,
    Booked(Row),
    NoMachine,
}

// The machines: failure rates, and for each link its time per unit of volume and its failure rate, a row for each sending machine. Document 01 gives two tables
// of links, so they are two columns here.
#[derive(Clone, Copy, PartialEq, Eq)]
pub struct Table {
    pub machines: u64,
    pub rates: [u64; MACHINES],
    pub times: [u64; PAIRS],
    pub fails: [u64; PAIRS],
}

// What a register is opened with.
#[derive(Clone, Copy, PartialEq, Eq)]
pub struct Setup {
    pub table: Table,
}
