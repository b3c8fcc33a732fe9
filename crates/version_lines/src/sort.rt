//! Lines in the order of the versions in them.

pub mod by;
mod entry;
pub mod keyed_lines;
pub mod newest;
pub mod newest_line;
