//! Versions borrowed from their texts. A version is its text and where its pieces lie in it: its kind, what its tail is,
//! where the body begins and ends, where the tail ends. One scan finds these, and with the text they answer every
//! question: the order, the key, and what requirements ask of a version. Only `append_key` and `append_end` allocate.
#![tactic(auto)]

mod asked;
mod key;
mod laws;
mod mixed;
mod order;
mod scan;
mod versioning_ref;
mod viable;

pub use key::length::room_for;
pub use key::ties::{compare_key_ties, mark_kind, marked_kind, marked_number};
pub use order::difference::Difference;
pub use scan::numeral::{numeral_value, spells_numeral};
pub use versioning_ref::VersioningRef;
pub use versioning_ref::field::Field;
pub use versioning_ref::numbers::{LARGEST_EPOCH, from_piece};
