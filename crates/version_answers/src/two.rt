//! What is answered about two versions.

pub(crate) mod compare;
pub(crate) mod difference;
pub(crate) mod explain;
