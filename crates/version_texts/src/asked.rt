//! What requirements ask of a version: the ends of ranges, and what `~` and `^` match.

pub(crate) mod end_order;
pub(crate) mod matching;
pub(crate) mod range;
