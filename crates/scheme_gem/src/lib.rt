//! RubyGems' versions: which texts they are, their order, their keys, and how far a text could become one. No call
//! allocates.
#![tactic(auto)]

mod laws;
mod reader;
mod version;

pub use version::Gem;
