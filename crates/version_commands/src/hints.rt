//! What a run tells beside: it may not have done what was meant.

pub(crate) mod of_lines;
pub(crate) mod of_words;
