//! The kinds of versions.

/// The kind of a version: the first of the three whose grammar matches the whole text.
#[derive(Clone, Copy, Debug, PartialEq, Eq, PartialOrd, Ord, Hash)]
pub enum Kind {
    /// Strict, such as `1.2.3-rc.1`.
    Ideal,
    /// General, such as `1:2.0rc1-3`.
    General,
    /// Messy, such as `10.2+0.93+1-1`.
    Complex,
}
