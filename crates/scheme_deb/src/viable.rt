//! How far a text could become a version of Debian.

ghost use Rattle.std.specs.Prelude.{is_some};
ghost use Rattle.version_order.specs.Viable.{IsLeft};
ghost use Rattle.scheme_deb.specs.Texts.{deb_of, is_behind_epoch};

use crate::sets::{BeforeColon, OfUpstream};
use crate::version::LARGEST_EPOCH;
use version_order::{Class, after_byte, begins_with, is_epoch, split_run, split_set};

/// What is left of a text after its longest beginning that some continuation makes a version. A hyphen and a revision may
/// follow any upstream version.
pub(crate) fn left_of_deb(text: &[u8]) -> &[u8]
    ensures { IsLeft (λ begun. is_some (deb_of begun)) text.now result.now }
{
    let (digits, rest) = split_run(text, Class::Digit);
    match after_byte(b':', rest) {
        Some(behind) => {
            if is_epoch(digits, LARGEST_EPOCH) {
                left_behind_epoch(behind)
            } else {
                rest
            }
        }
        None => {
            if begins_with(text, Class::Digit) {
                split_set::<BeforeColon>(text).1
            } else {
                text
            }
        }
    }
}

// The same of what stands behind an epoch.
#[tactic(auto, using(crate::proofs::lemmas::Viable::behind_left, crate::proofs::lemmas::Viable::no_digit_behind))]
fn left_behind_epoch(text: &[u8]) -> &[u8]
    ensures { IsLeft is_behind_epoch text.now result.now }
{
    if begins_with(text, Class::Digit) {
        split_set::<OfUpstream>(text).1
    } else {
        text
    }
}
