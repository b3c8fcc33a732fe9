//! A run of the programs `versions` and `vers`: what it is asked to do, the files that it may use, what it tells, and why it
//! fails. Nothing allocates that takes neither an allocator nor a buffer to add to.
#![tactic(auto)]

mod faults;
mod files;
mod options;
mod place;

pub use faults::{Blamed, TaskFault};
pub use files::{Files, Hint, NoFiles, Stage};
pub use options::{
    Arrangement, Choice, ColumnNames, EachOptions, Labels, LineOptions, Lists, Question, Task,
    VersionPlace,
};
pub use place::{column_in, column_text, line_text};
