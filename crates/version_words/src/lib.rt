//! The words of the program `versions`: `read_words` reads those of a command as the task that they mean, or says what is
//! wrong with them. docs/VERSIONS.md has its rules.
#![tactic(auto)]

mod faults;
mod task;
mod words;

pub use faults::Fault;
pub use words::read_words;
