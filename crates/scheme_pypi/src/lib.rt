//! Python's versions: which texts they are, their order, their keys, and how far a text could become one. No call allocates.
#![tactic(auto)]

mod compare;
mod key;
mod laws;
mod read;
mod version;
mod viable;
mod walk;

pub use version::Pypi;
