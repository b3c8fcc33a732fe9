//! What programs over lines of versions are made of: reading inputs, splitting lines and columns, putting lines in the
//! order of the versions in them, and writing them. It knows no words and no commands.
#![tactic(auto)]

mod column;
mod csv;
mod input;
mod inputs;
mod laws;
mod lines;
mod output;
mod sort;

pub use column::{Column, Separators};
pub use input::{Source, Trouble, read_all};
pub use inputs::{InputText, Line, Lines};
pub use lines::{Answer, Invalid, LineCommand, LineEnd, answer_lines, ends_quoted};
pub use output::{NotWritten, make_buffer, put, put_line, write_whole};
pub use sort::by::{SortBy, WholeLines};
pub use sort::keyed_lines::KeyedLines;
pub use sort::newest::GroupBy;
pub use sort::newest_line::NewestLine;
