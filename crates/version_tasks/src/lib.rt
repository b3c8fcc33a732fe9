//! What people ask of versions beside their order. `version_in_tag` and `version_after_prefix` find the version in a
//! tag of git, or in another name of a release; `stability_of` returns how stable a version is, by the words in it.
//! `next_of` returns the version that comes next at a place, `next_release` at the last one, and `next_pre` the
//! pre-release that comes next. Each answer is a definition of `specs/` on plain data. No call allocates, and each takes
//! time at most linear in its texts.
#![tactic(auto)]

mod laws;
mod next;
mod pre;
mod stability;
mod tag;

pub use next::{Next, next_of, next_release};
pub use pre::{NextPre, next_pre};
pub use stability::{Stability, stability_of, stability_of_text};
pub use tag::{
    start_after_prefix, start_in_tag, text_after_prefix, text_in_tag, version_after_prefix,
    version_in_tag,
};
