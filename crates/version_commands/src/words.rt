//! The tasks over words that should be versions or sets.

pub(crate) mod each;
pub(crate) mod test;
pub(crate) mod word;
