//! The words of the program `vers`: `task_of` reads those of a command as the task that they mean.
//! docs/VERS.md has its rules.
#![tactic(auto)]

mod faults;
mod words;

pub use faults::Fault;
pub use words::task_of;
