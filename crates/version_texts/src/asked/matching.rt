//! What an operator asks of two versions, by their texts and shapes. Nothing here allocates.

ghost use Rattle.std.specs.Prelude.{◌≡◌, ◌∷◌, ◌↔◌, IsTrue, Some};
ghost use Rattle.version_texts.specs.{Key.first_part, Key.more_parts, Key.parts_of, Key.text_key, Scan.body_in, Scan.shape_of, Scan.Fits};
ghost use Rattle.version_texts.specs.Asked.{epoch_and_parts_of};
ghost use Rattle.version_rules.specs.{grammar.Versioning.versioning_of, grammar.Versioning.PlainVersioning, requirement.Matching.MatchesCaret, requirement.Matching.MatchesTilde};
ghost use Rattle.version_rules.specs.requirement.VersionMatch.{MatchesCaret as PartsCaret, MatchesTilde as PartsTilde};

pub(crate) mod parts;

use crate::asked::matching::parts::{TextParts, numbers_match_caret};
use crate::order::compare_epochs;
use crate::scan::shape::Shape;
use version_rules::{Kind, parts_match_caret, parts_match_tilde};

/// Returns whether `~wanted` matches a version: by the rule of strict versions if both are strict, by that of general
/// ones if both are general, else never.
#[tactic(auto, using(crate::proofs::lemmas::Matching::kinds))]
pub fn matches_tilde(wanted: &[u8], wanted_shape: Shape, text: &[u8], shape: Shape) -> bool
    requires wanted_is { shape_of wanted.now ≡ Some wanted_shape }
    requires text_is { shape_of text.now ≡ Some shape }
    ensures { (w v : PlainVersioning) → versioning_of wanted.now ≡ Some w
        → versioning_of text.now ≡ Some v → (IsTrue result ↔ MatchesTilde w v) }
{
    match (wanted_shape.kind, shape.kind) {
        (Kind::Ideal, Kind::Ideal) => {
            parts_match_tilde(body_parts(wanted, wanted_shape), body_parts(text, shape))
        }
        (Kind::General, Kind::General) => general_match_tilde(wanted, wanted_shape, text, shape),
        _ => false,
    }
}

/// Returns whether `^wanted` matches a version: by the rule of strict versions if both are strict, by that of general
/// ones if both are general, else never.
#[tactic(auto, using(crate::proofs::lemmas::Matching::kinds))]
pub fn matches_caret(wanted: &[u8], wanted_shape: Shape, text: &[u8], shape: Shape) -> bool
    requires wanted_is { shape_of wanted.now ≡ Some wanted_shape }
    requires text_is { shape_of text.now ≡ Some shape }
    ensures { (w v : PlainVersioning) → versioning_of wanted.now ≡ Some w
        → versioning_of text.now ≡ Some v → (IsTrue result ↔ MatchesCaret w v) }
{
    match (wanted_shape.kind, shape.kind) {
        (Kind::Ideal, Kind::Ideal) => {
            numbers_match_caret(body_parts(wanted, wanted_shape), body_parts(text, shape))
        }
        (Kind::General, Kind::General) => general_match_caret(wanted, wanted_shape, text, shape),
        _ => false,
    }
}

// Whether `~wanted` matches by epochs and parts.
fn general_match_tilde(wanted: &[u8], wanted_shape: Shape, text: &[u8], shape: Shape) -> bool
    requires wanted_fits { Fits wanted.now wanted_shape }
    requires text_fits { Fits text.now shape }
    ensures { IsTrue result ↔ PartsTilde (epoch_and_parts_of (text_key wanted.now wanted_shape))
        (epoch_and_parts_of (text_key text.now shape)) }
{
    compare_epochs(wanted, wanted_shape, text, shape).is_eq()
        && parts_match_tilde(body_parts(wanted, wanted_shape), body_parts(text, shape))
}

// Whether `^wanted` matches by epochs and parts.
fn general_match_caret(wanted: &[u8], wanted_shape: Shape, text: &[u8], shape: Shape) -> bool
    requires wanted_fits { Fits wanted.now wanted_shape }
    requires text_fits { Fits text.now shape }
    ensures { IsTrue result ↔ PartsCaret (epoch_and_parts_of (text_key wanted.now wanted_shape))
        (epoch_and_parts_of (text_key text.now shape)) }
{
    compare_epochs(wanted, wanted_shape, text, shape).is_eq()
        && parts_match_caret(body_parts(wanted, wanted_shape), body_parts(text, shape))
}

// The parts of the body of a version.
#[inline(always)]
#[tactic(auto, using(crate::proofs::lemmas::Pieces::parts_begin))]
fn body_parts(text: &[u8], shape: Shape) -> TextParts<'_>
    requires { Fits text.now shape }
    ensures { first_part result.0.now ∷ more_parts result.0.now ≡ parts_of (body_in text.now shape) }
{
    TextParts(&text[shape.body..shape.end])
}
