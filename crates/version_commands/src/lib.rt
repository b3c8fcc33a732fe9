//! The tasks of the programs `versions` and `vers` over any files, reader and writer: `serve` reads the inputs of a task,
//! and writes what it answers. docs/VERSIONS.md and docs/VERS.md have their rules. Nothing allocates that takes neither an
//! allocator nor a buffer to add to.
#![tactic(auto)]

mod bad;
mod hints;
mod inputs;
mod lines;
mod lists;
mod program;
mod words;

pub use program::serve;
