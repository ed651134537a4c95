//! The copier Clover: a mark, drawn at random, stands in place of each value that has moved.
#![tactic(auto)]

mod access;
mod call;
mod clover;
mod mover;

pub use access::{Access, Action, Place};
pub use call::{CallEnd, CloverCall};
pub use clover::Clover;
pub use mover::{CloverMove, MoveHeaders, Relocation};

#[cfg(test)]
mod tests;
