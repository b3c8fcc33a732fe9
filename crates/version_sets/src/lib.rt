//! Sets of versions by the ends of their intervals among the bytes of sort keys: a set begins at its first end, is left
//! at the next, and so on, and the ends rise. So a set has one form, and what two sets make is one merge of their ends.
//! A set is bytes in the caller's room, also where it is read as people write it, and no call allocates.
#![tactic(auto)]

mod algebra;
mod form;
mod has;
mod laws;
mod merge;
mod read;
mod start;
mod write;

/// The number of the order of all versions.
pub const MIXED: u8 = 1;

pub use form::Form;
pub use form::intervals::Interval;
pub use merge::{Merge, Rule};
pub use read::comparison::Comparison;
pub use read::excluding::{Alternatives, NoRoom, Span};
pub use read::fault::{Fault, Reason};
pub use read::find::find_fault;
pub use read::member::write_tied;
pub use read::slip::Slip;
pub use read::{Unread, read_set, set_room};
pub use write::write_merge;
