//! Debian's versions: which texts they are, their order, their keys, and how far a text could become one. No call allocates.
#![tactic(auto)]

mod laws;
mod rank;
mod sets;
mod version;
mod viable;

pub use version::Deb;
