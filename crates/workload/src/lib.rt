// Jobs for tests, the same on every run: drawn from a seed, or made by hand.
#![tactic(auto)]

pub mod drawn;
pub mod draws;
pub mod examples;
mod faults;
mod graphs;
pub mod limits;
pub mod refused;
pub mod shapes;
