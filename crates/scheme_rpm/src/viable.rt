//! How far a text could become a version of RPM.

ghost use Rattle.std.specs.Prelude.{is_some};
ghost use Rattle.version_order.specs.Viable.{IsLeft};
ghost use Rattle.scheme_rpm.specs.Texts.{is_behind_epoch, rpm_of};

use crate::sets::OfRpm;
use crate::version::LARGEST_EPOCH;
use version_order::{Class, after_byte, is_epoch, split_run, split_set};

/// What is left of a text after its longest beginning that some continuation makes a version.
pub(crate) fn left_of_rpm(text: &[u8]) -> &[u8]
    ensures { IsLeft (λ begun. is_some (rpm_of begun)) text.now result.now }
{
    let (digits, rest) = split_run(text, Class::Digit);
    match after_byte(b':', rest) {
        Some(behind) => {
            if is_epoch(digits, LARGEST_EPOCH) {
                left_behind_epoch(behind)
            } else {
                rest
            }
        }
        None => left_behind_epoch(text),
    }
}

// The same of what stands behind an epoch: a version, and perhaps a hyphen and a release.
#[tactic(auto, using(crate::proofs::lemmas::Viable::no_version, crate::proofs::lemmas::Viable::no_release))]
fn left_behind_epoch(text: &[u8]) -> &[u8]
    ensures { IsLeft is_behind_epoch text.now result.now }
{
    let (version, rest) = split_set::<OfRpm>(text);
    if version.is_empty() {
        return rest;
    }
    match after_byte(b'-', rest) {
        Some(release) => split_set::<OfRpm>(release).1,
        None => rest,
    }
}
