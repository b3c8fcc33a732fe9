//! Where a walk over a text stops.

/// What is left of a text at the first byte that can't follow what stands before it.
#[derive(Clone, Copy)]
pub struct Stop<'t> {
    pub rest: &'t [u8],
    /// Whether what stands before the rest is whole, and not only the beginning of something.
    pub is_whole: bool,
}
