//! The copier of objects that stay where they are made: its calls take objects as they are, and its moves
//! leave them there.
#![tactic(auto)]

mod at_rest;
mod stay;

pub use at_rest::AtRest;
pub use stay::StayMachine;
