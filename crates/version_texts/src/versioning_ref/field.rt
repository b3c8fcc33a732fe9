//! The fields of a version that are pieces of its text.

/// A field of a version that is a piece of its text.
#[derive(Clone, Copy, Debug, PartialEq, Eq)]
pub enum Field {
    /// The digits before the colon of a general or messy version, whose value is the epoch.
    Epoch,
    /// What follows the hyphen of a strict version.
    PreRelease,
    /// What follows the hyphen of a general version.
    Release,
    /// What follows the plus of a strict or general version.
    Metadata,
}
