//! The tasks over lines: where the version of a line stands, which lines are taken and kept, how they are arranged, and
//! what is written.

pub(crate) mod arrange;
pub(crate) mod by_schemes;
pub(crate) mod choice;
pub(crate) mod first_word;
pub(crate) mod header;
pub(crate) mod pick;
pub(crate) mod place;
pub(crate) mod rows;
pub(crate) mod run;
pub(crate) mod standard;
pub(crate) mod write;
