//! The statuses that the exports return, by the numbers of c/versions.h.

/// The call succeeded.
pub const OK: i32 = 0;
/// The text is not a version.
pub const NO_VERSION: i32 = 1;
/// The first of two texts is not a version.
pub const NO_VERSION_A: i32 = 2;
/// The second of two texts is not a version.
pub const NO_VERSION_B: i32 = 3;
/// Neither of two texts is a version.
pub const NO_VERSION_AB: i32 = 4;
/// The text is not a list of requirements.
pub const NO_REQUIREMENTS: i32 = 5;
/// The version has no number at that place.
pub const NO_NUMBER: i32 = 6;
/// The keys do not fit into the buffer.
pub const NO_ROOM: i32 = 7;
/// An offset is bad, or the lengths of two arrays do not match.
pub const BAD_OFFSETS: i32 = 8;
/// The version has no such field.
pub const NO_FIELD: i32 = 11;
/// Each member of the list is a requirement, or the text is a set.
pub const NO_WRONG_MEMBER: i32 = 12;
/// The epoch is above the largest signed number of 64 bits.
pub const LARGE_EPOCH: i32 = 13;
/// No field has that number.
pub const UNKNOWN_FIELD: i32 = 14;
/// Each member of the list matches the version.
pub const ALL_MATCH: i32 = 15;
/// No two members of the list exclude each other.
pub const NO_CONFLICT: i32 = 16;
/// No version comes next after the version.
pub const NO_NEXT: i32 = 17;
/// The text is not a set of versions.
pub const NO_SET: i32 = 18;
/// The bytes are not the form of a set.
pub const NO_FORM: i32 = 19;
/// No scheme has that number.
pub const NO_SCHEME: i32 = 20;
/// The two sets are of different schemes.
pub const OTHER_SCHEME: i32 = 21;
/// The set has no interval at that place.
pub const NO_INTERVAL: i32 = 22;
/// The text is a version.
pub const IS_VERSION: i32 = 23;
