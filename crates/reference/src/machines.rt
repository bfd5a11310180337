// The machines and the links between them, with the tables of what they cost.
ghost use Rattle.std.specs.Prelude.{◌≤◌};

use crate::refusals::Refusal;

#[derive(Clone, Copy, PartialEq, Eq)]
pub enum Machine {
    One,
    Two,
    Three,
    Four,
}

impl Machine {
    pub const ALL: [Machine; 4] = [Machine::One, Machine::Two, Machine::Three, Machine::Four];

    // From 1 to 4.
    pub fn number(self) -> u64
        ensures { (1 ≤ result) × (result ≤ 4) }
    {
        self as u64 + 1
    }
}

impl TryFrom<u64> for Machine {
    type Error = Refusal;

    fn try_from(number: u64) -> Result<Self, Refusal> {
        match number {
            1 => Ok(Machine::One),
            2 => Ok(Machine::Two),
            3 => Ok(Machine::Three),
            4 => Ok(Machine::Four),
            _ => Err(Refusal::NoSuchMachine),
        }
    }
}

// A link has a direction: from machine 1 to 2 and from 2 to 1 are two.
#[derive(Clone, Copy, PartialEq, Eq)]
pub struct Link {
    pub from: Machine,
    pub to: Machine,
}

// What a row takes.
#[derive(Clone, Copy, PartialEq, Eq)]
pub enum Resource {
    Machine(Machine),
    Link(Link),
}

// What a tick of each machine and each link costs, and the time of a unit of volume on each link: by the sending machine, then the receiving one.
#[derive(Clone, Copy)]
pub struct Tables {
    machine_rates: [u64; 4],
    link_rates: [[u64; 4]; 4],
    link_times: [[u64; 4]; 4],
}

impl Tables {
    // Those of document 01.
    pub fn new() -> Self {
        Tables {
            machine_rates: [10, 4, 10, 25],
            link_rates: [[0, 5, 8, 6], [5, 0, 7, 9], [8, 7, 0, 5], [6, 9, 5, 0]],
            link_times: [[0, 2, 3, 1], [2, 0, 1, 4], [3, 1, 0, 2], [1, 4, 2, 0]],
        }
    }

    pub fn rate(&self, resource: Resource) -> u64 {
        match resource {
            Resource::Machine(machine) => self.machine_rates[machine as usize],
            Resource::Link(link) => self.link_rates[link.from as usize][link.to as usize],
        }
    }

    pub fn link_time(&self, link: Link) -> u64 {
        self.link_times[link.from as usize][link.to as usize]
    }

    // Another time for a link, in this direction alone: for showing that a comparison finds the fault.
    pub fn set_link_time(&mut self, link: Link, time: u64) {
        self.link_times[link.from as usize][link.to as usize] = time;
    }
}
