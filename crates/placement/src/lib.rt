// A whole job placed: the rows of each trial that is kept, behind those of the job so far, and their spans on the timeline.
#![tactic(auto)]

mod append;
mod bookings;
pub mod own;
pub mod place;
