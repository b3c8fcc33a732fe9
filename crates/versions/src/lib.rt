//! Parses, prints, orders and matches version numbers.
//!
//! A strict version (`SemVer`) is `major.minor.patch`, then perhaps a pre-release and build metadata, as in
//! `1.2.3-rc.1+x86`. A general version (`Version`) is what most packages have: parts with dots between, perhaps with an
//! epoch, a release and metadata, as in `1:2.0rc1-3`. A messy version (`Mess`) is runs of letters and digits with dots
//! and single signs between, as in `10.2+0.93+1-1`. A `Versioning` is the first of these that fits. A `Requirement`,
//! such as `^1.2.3`, matches versions. A list of them, a `Requirements`, matches the versions that each member matches.
//! What they hold is owned, to be read and changed. What orders, prints and matches texts without owning them is the
//! crate `version_texts`; `Versioning::of` makes its versions owned.
//!
//! In a JSON document a `Versioning` is a string, by `serialize_pretty` and `deserialize_pretty`; so are a
//! `Requirement` and a `Requirements`, by `serialize` and `deserialize`. `SemVer`, `Version` and the parts of versions
//! derive serde's forms.
//!
//! A call whose comment doesn't speak of allocation allocates nothing.
#![tactic(auto)]

mod conversions;
mod errors;
mod json;
pub mod key;
mod mess;
mod optional;
mod order;
mod parts;
mod pretty;
mod range;
mod requirement;
mod requirements;
mod semver;
mod version;
mod versioning;

pub use errors::{Error, JsonError, ReadError};
pub use mess::Mess;
pub use range::Range;
pub use requirement::Requirement;
pub use requirements::Requirements;
pub use semver::SemVer;
pub use version::Version;
pub use version_order::{End, Kept};
pub use version_parts::{Chunk, Chunks, Last, MChunk, Release, Sep, parsers};
pub use version_rules::{Asked, Ends, Kind, Kinds, Op, asks_for, ends_of, ends_without_version};
pub use version_texts::VersioningRef;
pub use versioning::Versioning;
