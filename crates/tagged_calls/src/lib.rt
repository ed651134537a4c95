//! How a call comes to the word of its field where an object that is to be copied is tagged first: what
//! the header says of where the word is, and the call there, in the original or in the copy.
#![tactic(auto)]

mod location;
mod placed;

pub use location::{Keep, Location};
pub use placed::{Placed, exchange_in, read_in, write_in};
