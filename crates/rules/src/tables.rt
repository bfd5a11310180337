// The machine tables: the default one, and what code reads of one.
ghost use Rattle.std.specs.Prelude.{◌≡◌};
ghost use Rattle.rules.specs.Words.{setup_by_default, rate, link_time, link_rate, link_place};
ghost use Rattle.rules.specs.Asked.{HasMachine, HasLink};

use crate::{DEFAULT_MACHINES, MACHINES, PAIRS, Setup, Table};

// The links of the default table, a row of eight for each sending machine: figures for the four machines that it has, and zeros.
const DEFAULT_TIMES: [u64; PAIRS] = [
    0, 2, 3, 1, 0, 0, 0, 0, 2, 0, 1, 4, 0, 0, 0, 0, 3, 1, 0, 2, 0, 0, 0, 0, 1, 4, 2, 0, 0, 0, 0, 0,
    0, 0, 0, 0, 0, 0, 0, 0, 0, 0, 0, 0, 0, 0, 0, 0, 0, 0, 0, 0, 0, 0, 0, 0, 0, 0, 0, 0, 0, 0, 0, 0,
];

const DEFAULT_FAILS: [u64; PAIRS] = [
    0, 5, 8, 6, 0, 0, 0, 0, 5, 0, 7, 9, 0, 0, 0, 0, 8, 7, 0, 5, 0, 0, 0, 0, 6, 9, 5, 0, 0, 0, 0, 0,
    0, 0, 0, 0, 0, 0, 0, 0, 0, 0, 0, 0, 0, 0, 0, 0, 0, 0, 0, 0, 0, 0, 0, 0, 0, 0, 0, 0, 0, 0, 0, 0,
];

// The tables that document 01 gives.
pub fn default_setup() -> Setup
    ensures { result ≡ setup_by_default }
{
    Setup {
        table: Table {
            machines: DEFAULT_MACHINES as u64,
            rates: [10, 4, 10, 25, 0, 0, 0, 0],
            times: DEFAULT_TIMES,
            fails: DEFAULT_FAILS,
        },
    }
}

// The place of link a to b in the columns of links, which stand row by row, a row for each sending machine.
fn place_of_link(a: u64, b: u64) -> usize
    requires { HasLink a b }
    ensures { result ≡ link_place a b }
{
    (a as usize - 1) * MACHINES + (b as usize - 1)
}

impl Setup {
    // The failure rate of a machine.
    pub fn rate(&self, machine: u64) -> u64
        requires { HasMachine machine }
        ensures { result ≡ rate self.now machine }
    {
        self.table.rates[machine as usize - 1]
    }

    // The time of link a to b per unit of volume.
    pub fn link_time(&self, a: u64, b: u64) -> u64
        requires { HasLink a b }
        ensures { result ≡ link_time self.now a b }
    {
        self.table.times[place_of_link(a, b)]
    }

    // The failure rate of link a to b.
    pub fn link_rate(&self, a: u64, b: u64) -> u64
        requires { HasLink a b }
        ensures { result ≡ link_rate self.now a b }
    {
        self.table.fails[place_of_link(a, b)]
    }
}
