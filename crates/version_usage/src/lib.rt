//! The words of the program `versions`, as `clap` reads them: its commands and options, what single words name, what the
//! words say to a command, and what is said of wrong ones. docs/VERSIONS.md has their rules.
#![tactic(auto)]

pub mod faults;
pub mod grammar;
pub mod named;
pub mod near;
pub mod rows;
pub mod table;
pub mod wrong;
