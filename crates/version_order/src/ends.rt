//! The ends of ranges, by the key of a version.

/// The parts that are kept of those of a version's body.
#[derive(Clone, Copy, Debug, PartialEq, Eq)]
pub enum Kept {
    /// All parts.
    All,
    /// The parts before the last one.
    ButLast,
    /// The parts before the last one, or the only one.
    ButLastOrOnly,
    /// The parts through the first one that is not a plain zero, or all if each is one.
    ThroughOther,
}

/// An end of a range, by the key of a version.
#[derive(Clone, Copy, Debug, PartialEq, Eq)]
pub enum End {
    /// No bytes.
    Lowest,
    /// The byte 0: below every key.
    Zero,
    /// The key.
    Key,
    /// The key and the byte 0: the next bytes after the key.
    AfterKey,
    /// The epoch and the kept parts, without the end of their list.
    Begun(Kept),
    /// The same and the byte 4: above every key that begins with them.
    AboveBegun(Kept),
}
