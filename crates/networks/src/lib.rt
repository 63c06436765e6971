// Small networks and questions of them, the same in every run, for trials of the planner.
#![tactic(auto)]

pub mod dice;
mod driving;
pub mod network;
pub mod questions;
mod tables;
mod walking;
