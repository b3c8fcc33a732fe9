//! The rules of versions: which texts are versions and requirements, in which order versions come, which bytes their
//! keys have, what a requirement matches, and the range of keys that it asks for. They are definitions on plain data, in
//! `specs/`, and laws on them, the contracts of the functions in `laws`. What reads texts, compares them and writes their
//! keys is the crate `version_texts`; owned values are the crate `versions`. No call allocates.
#![tactic(auto)]

mod asked;
mod ends;
mod kind;
mod kinds;
mod laws;
mod op;
mod parts;

pub use asked::{Asked, asks_for};
pub use ends::{Ends, ends_of, ends_without_version};
pub use kind::Kind;
pub use kinds::Kinds;
pub use op::Op;
pub use parts::{Parts, parts_match_caret, parts_match_tilde};
