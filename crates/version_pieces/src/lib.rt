//! Pieces of texts between marks, which `mixed` and `semver` have: what ends them, their runs of bytes compared, and the
//! chunks of releases, compared and written. No call allocates.
#![tactic(auto)]

mod releases;
mod runs;

pub use releases::{compare_releases, put_release};
pub use runs::{Delimiters, Run, compare_runs, compare_texts};
