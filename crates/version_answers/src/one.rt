//! What is answered about one version.

pub(crate) mod json;
pub(crate) mod key;
pub(crate) mod next;
pub(crate) mod show;
pub(crate) mod why;
