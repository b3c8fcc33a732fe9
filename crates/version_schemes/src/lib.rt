//! The table of the schemes, and versions of any of them: what was read of a text, its order and its key, and why a text
//! is none. Each scheme is a crate below. Only `AnyVersion::append_key` allocates.
#![tactic(auto)]

mod any;
mod flaw;
mod key;
mod laws;
mod scheme;

pub use any::AnyVersion;
pub use flaw::{Flaw, Mark, Reason, viable_length};
pub use key::write_key;
pub use scheme::Scheme;
pub use scheme_deb::Deb;
pub use scheme_gem::Gem;
pub use scheme_pypi::Pypi;
pub use scheme_rpm::Rpm;
pub use scheme_semver::SemVer;
pub use version_texts::VersioningRef;
