//! A world: the threads of a script and the words on which they step, played one atomic step at a time.
#![tactic(auto)]

mod job_log;
mod schedule;
mod sequel;
mod stepping;
mod world;

pub use job_log::{JobLog, SealedAt};
pub use schedule::{Schedule, StepsSpent};
pub use sequel::{Face, InRegister, Sequel, what_follows};
pub use stepping::Steps;
pub use world::{Turn, World};
