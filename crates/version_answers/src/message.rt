//! What a message says of a text.

pub(crate) mod quote;
pub(crate) mod remark;
pub(crate) mod schemes;
