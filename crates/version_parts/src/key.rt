//! Streams of the bytes by which parts, lists of parts and releases compare. None of them allocates.

mod compare;
pub(crate) mod inline;
mod list;
mod piece;
mod place;
mod text;

pub use compare::{compare_bytes, compare_part_lists, compare_parts};
pub use list::{Code, ItemsLeft, ListBytes, ListLeft};
pub use piece::PieceBytes;
pub use text::PartText;
