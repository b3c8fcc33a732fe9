//! What is answered about versions that words and lines spell, as text: about one, about two, about one and a set; and
//! what a message says of a text that is none. `version_commands` has the tasks that ask it. Nothing allocates that takes
//! neither an allocator nor a buffer to add to.
#![tactic(auto)]

mod laws;
mod message;
mod one;
mod pieces;
mod set;
mod spelling;
mod tags;
mod two;

pub use message::quote::{Shown, quoted, shown_front};
pub use message::remark::{NoVersion, Others, Remark};
pub use message::schemes::SchemeNames;
pub use one::json::add_json;
pub use one::key::add_key_line;
pub use one::next::{Step, add_next};
pub use one::show::add_show;
pub use one::why::{add_head, add_why};
pub use set::{Set, WrongSet, room_of};
pub use spelling::{Naming, Spelling};
pub use tags::{
    begins_with_number, begins_with_v, compare_otherwise, has_next_in_tag, is_tested_otherwise,
    order_of_tags, tagged,
};
pub use two::compare::{Operator, holds};
pub use two::difference::add_difference;
pub use two::explain::add_explained;
