//! The numbers of a version.

ghost use Rattle.std.specs.Prelude.{◌≡◌, ◌≢◌, IfSome, Some};
ghost use Rattle.version_rules.specs.{grammar.Versioning.versioning_nth, grammar.Versioning.versioning_of, key.Key.versioning_epoch};
ghost use Rattle.version_texts.specs.VersioningRef.{largest_epoch};
ghost use Rattle.versions_c.specs.Fields.{epoch_status, number_status};

use crate::status::{LARGE_EPOCH, NO_NUMBER, NO_VERSION, OK};
use version_texts::{LARGEST_EPOCH, VersioningRef};

/// Writes the number at a place of a version.
#[unsafe(no_mangle)]
pub extern "C" fn versions_nth(text: &[u8], n: usize, number: &mut u32) -> i32
    ensures status { result ≡ number_status (versioning_of text.now) (λ v. versioning_nth v n) }
    ensures number { result ≡ OK → IfSome (versioning_of text.now)
        (λ v. versioning_nth v n ≡ Some number.new) }
    ensures kept { result ≢ OK → number.new ≡ number.old }
{
    let Some(version) = VersioningRef::from_bytes(text) else {
        return NO_VERSION;
    };
    let Some(found) = version.nth(n) else {
        return NO_NUMBER;
    };
    *number = found;
    OK
}

/// Writes the epoch of a version, or the largest one that can be written if it is larger.
#[unsafe(no_mangle)]
pub extern "C" fn versions_epoch(text: &[u8], epoch: &mut u64) -> i32
    ensures status { result ≡ epoch_status (versioning_of text.now) }
    ensures epoch { result ≡ OK → IfSome (versioning_of text.now)
        (λ v. versioning_epoch v ≡ Some epoch.new) }
    ensures largest { result ≡ LARGE_EPOCH → epoch.new ≡ largest_epoch }
    ensures kept { result ≢ OK → result ≢ LARGE_EPOCH → epoch.new ≡ epoch.old }
{
    let Some(version) = VersioningRef::from_bytes(text) else {
        return NO_VERSION;
    };
    let Some(found) = version.epoch() else {
        return NO_NUMBER;
    };
    if found > LARGEST_EPOCH {
        *epoch = LARGEST_EPOCH;
        return LARGE_EPOCH;
    }
    *epoch = found;
    OK
}
