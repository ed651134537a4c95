//! Regions: what the word of each says, which of its own a pass claims, how many objects need, which a cycle
//! empties, and how one is given again.
#![tactic(auto)]

mod claim;
mod move_job;
mod next_fit;
mod plan;
mod region_word;
mod release;
mod space;

pub use claim::{ClaimEnd, ClaimMachine, Round};
pub use move_job::MoveJob;
pub use next_fit::packing;
pub use plan::{ObjectRow, Plan, RegionLive};
pub use region_word::RegionWord;
pub use release::{Release, ReleaseMachine};
