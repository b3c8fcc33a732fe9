//! Where the fields of a version lie in its text.

ghost use Rattle.std.specs.Prelude.{◌≡◌, ◌≢◌, IfSome, Some};
ghost use Rattle.std.specs.Option.{option_and_then};
ghost use Rattle.version_texts.specs.VersioningRef.{field_span};
ghost use Rattle.version_rules.specs.grammar.Versioning.{versioning_of};
ghost use Rattle.versions_c.specs.Fields.{field_of, field_status};

use crate::status::{NO_FIELD, NO_VERSION, OK, UNKNOWN_FIELD};
use version_texts::{Field, VersioningRef};

/// The digits before the colon.
pub const EPOCH: u32 = 1;
/// The pre-release of a strict version.
pub const PRE_RELEASE: u32 = 2;
/// The release of a general version.
pub const RELEASE: u32 = 3;
/// The metadata of a strict or general version.
pub const METADATA: u32 = 4;

/// Writes where a field of a version begins and ends in its text.
#[unsafe(no_mangle)]
pub extern "C" fn versions_field(text: &[u8], field: u32, start: &mut usize, end: &mut usize) -> i32
    ensures status { result ≡ field_status (field_of field) (versioning_of text.now) }
    ensures place { result ≡ OK → IfSome (versioning_of text.now)
        (λ v. option_and_then (λ f. field_span f v) (field_of field)
        ≡ Some (start.new, end.new)) }
    ensures kept_start { result ≢ OK → start.new ≡ start.old }
    ensures kept_end { result ≢ OK → end.new ≡ end.old }
{
    let Some(field) = field_of(field) else {
        return UNKNOWN_FIELD;
    };
    let Some(version) = VersioningRef::from_bytes(text) else {
        return NO_VERSION;
    };
    let Some((first, behind)) = version.span(field) else {
        return NO_FIELD;
    };
    *start = first;
    *end = behind;
    OK
}

// Returns the field of a number, if there is one.
fn field_of(field: u32) -> Option<Field>
    ensures { result ≡ field_of field }
{
    match field {
        EPOCH => Some(Field::Epoch),
        PRE_RELEASE => Some(Field::PreRelease),
        RELEASE => Some(Field::Release),
        METADATA => Some(Field::Metadata),
        _ => None,
    }
}
