//! Phases of a collection, the words that announce and acknowledge them, and how a pass answers one: it
//! follows its links, polls the phase word, and retires; and how the collector awaits the answer.
#![tactic(auto)]

mod answer;
mod follow;
mod pass_view;
mod phase_word;
mod poll;
mod retire;

pub use answer::{AwaitEnd, AwaitMachine};
pub use follow::{FollowEnd, FollowMachine};
pub use pass_view::PassView;
pub use phase_word::{Phase, PhaseWord};
pub use poll::{Poll, PollEnd, PollMachine};
pub use retire::{Retire, RetireMachine};
