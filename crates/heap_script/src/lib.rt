//! Scripts: a heap line, and the commands of threads, read and printed; the commands by thread; and what there is to
//! tell of a script that is played: its answers, its ended calls, and the tries that were refused.
//!
//! A line ends at LF or at the input's end; one CR before LF is dropped. Words stand between spaces. A
//! line without words, or whose first word begins with `;`, is passed over. The first other line is
//! `heap P threads Q quota L pool W wide C cycles`, with five numbers, and each later one is a command
//! of a thread:
//!
//! | Line | Command |
//! |---|---|
//! | `T new R N` | makes an object of N fields, 0 to 30, and puts it in register R |
//! | `T get R S.F` | reads field F, 0 to 29, of the object in register S into R |
//! | `T put S.F V` | writes V into the field |
//! | `T cas R S.F V V` | writes the second V where the field holds the first, and else puts what it holds in R |
//! | `T copy R S` | copies register S into R |
//! | `T drop R` | sets R to 0 |
//! | `T poll` | does nothing |
//!
//! T is a thread, 1 to P. R and S are letters `a` to `h`. V is such a letter, or a number below 2^48.
//! A number has 1 to 20 digits, and may begin with zeros.
#![tactic(auto)]

mod answer;
mod command_lines;
mod commands;
mod fault;
mod heading;
mod places;
mod printing;
mod reading;
mod script;
mod told;
mod words;

pub use answer::{Answer, Answers};
pub use commands::Commands;
pub use fault::{FaultKind, ReadScriptFault};
pub use heap_history::OutOfMemory;
pub use printing::print_script;
pub use reading::read_script;
pub use script::{Command, Line, Script};
pub use told::{Again, Refusal, Told};
pub use words::number;
