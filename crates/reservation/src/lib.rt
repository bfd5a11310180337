// The register: booked rows, a clock and a total, changed by calls alone. A call is made over the timetable (`timetable`, `admission`).
// Then a function here makes the register that is left.
#![tactic(auto)]

pub mod calls;
mod changes;
mod sight;

ghost use Rattle.std.specs.Prelude.{◌≡◌, length};
ghost use Rattle.rules.specs.Words.{fresh, setup_by_default, row_limit};
ghost use Rattle.timeline.specs.RowLine.{slots};
ghost use Rattle.reservation.specs.Registers.{register_of};

use rules::answers::{Admission, Refusal};
use rules::tables::default_setup;
use rules::{HORIZON, MESSAGES, ROWS, Row, Setup, TASKS};
use std::marker::Model;
use timetable::Timetable;

// A register is what it was opened with, its clock, its rows in the order of their admission, and its total.
// The timetable is kept so that a call need not look through the rows: it is made of them.
// The rows stand apart from their count, since the kit's vector of fixed capacity is not `Copy`. Unused slots are blank, so equal registers are equal values.
#[derive(Clone, Copy)]
pub struct Register {
    setup: Setup,
    timetable: Timetable,
    rows: [Row; ROWS],
}

// Clauses see what a register was opened with and the state of the rules that it stands for.
impl Model for Register {
    ghost use Rattle.reservation.specs.Standing.{Standing};

    ghost Value = { Standing };

    ghost use Rattle.reservation.specs.Fields.{standing_of, fields_of, Kept};

    ghost view = { standing_of };

    ghost invariant = { Kept };

    ghost inverse = { fields_of };

    ghost use Rattle.std.proofs.Common.{sym};

    ghost inverse_ok = { λ a kept. sym kept.kept };
}

// The answer to a call, and the register that it leaves: if it was refused, the very same.
#[derive(Clone, Copy)]
pub struct Reply {
    pub answer: Result<Admission, Refusal>,
    pub register: Register,
}

impl Register {
    pub const ROWS: usize = ROWS;

    pub const HORIZON: u64 = HORIZON;

    pub const TASKS: usize = TASKS;

    pub const MESSAGES: usize = MESSAGES;

    // A fresh register: clock 0, no rows and total 0.
    pub fn new() -> Self
        ensures { result ≡ register_of setup_by_default fresh }
    {
        Self {
            setup: default_setup(),
            timetable: Timetable::new(),
            rows: [Row::default(); Self::ROWS],
        }
    }

    pub fn clock(self) -> u64
        ensures { result ≡ self.state.calendar.clock }
    {
        self.timetable.clock
    }

    pub fn total(self) -> u64
        ensures { result ≡ self.state.total }
    {
        self.timetable.total
    }

    // How many rows are held.
    pub fn count(self) -> usize
        ensures { result ≡ length self.state.rows }
    {
        self.timetable.line.count()
    }

    // The slots of all rows; those past the count are blank.
    pub fn rows(self) -> [Row; ROWS]
        ensures { result ≡ slots row_limit self.state.rows }
    {
        self.rows
    }
}
