//! Parsers of numbers, runs and metadata. Each returns the value at the start of a text and the unread rest.

ghost use Rattle.std.specs.Prelude.{string_bytes};
ghost use Rattle.version_parts.specs.Body.{Reads};
ghost use Rattle.version_rules.specs.grammar.Body.{meta_front};

use crate::scan;
pub use crate::scan::{alphanums, hyphenated_alphanums, unsigned};
use std::alloc::{AllocError, Global};

/// Parses the build metadata at the start of a text, and returns it with the rest: a plus, then the longest nonempty
/// run of letters, digits, dots and hyphens. The value is without the plus. SemVer 2.0, section 10, also requires that
/// no piece between dots is empty. Returns None, without allocating, if no metadata parses. Fails with `AllocError` on
/// allocation failure.
pub fn meta(alloc: Global, i: &str) -> Result<Option<(String, &str)>, AllocError>
    ensures { Reads (λ t. string_bytes t) (λ _. Unit {0}) result (meta_front i.now) }
{
    let Some((text, rest)) = scan::metadata(i) else {
        return Ok(None);
    };
    Ok(Some((String::from_str(alloc, text)?, rest)))
}
