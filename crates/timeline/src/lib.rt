// The timeline: every span that is held, of all machines and links on one ascending number line, and what is noted of each.
#![tactic(auto)]

pub mod bookings;
pub mod columns;
pub mod leaving;
pub mod line;
pub mod notes;

// One past every tick that a span names: the ticks of a resource lie from its number times this on.
pub const TICKS: u64 = 4_294_967_296;

// The rows of one job at the most, and room on the timeline for those held and these.
pub const OWN: usize = rules::TASKS + rules::MESSAGES;

pub const SPANS: usize = rules::ROWS + OWN;
