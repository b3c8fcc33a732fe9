//! The newest line of an input, in one pass and without keys.
ghost use Rattle.std.specs.Prelude.{◌≡◌, ◌∷◌, ◌++◌, [], ℕ, List, Some};
ghost use Rattle.version_lines.specs.{Newest.newest_alone, Newest.rows_in, Newest.IsNewestOf, Sort.version_in};
ghost use Rattle.version_schemes.specs.any.AnyVersion.{plain_any};

use crate::sort::by::SortBy;
use version_schemes::{AnyVersion, Scheme};

/// The newest of the lines so far: the first that no other comes after in precedence.
#[derive(Drop)]
pub struct NewestLine<'a, B> {
    by: B,
    newest: Option<(&'a [u8], AnyVersion<'a>)>,
}

impl<'a, B: SortBy> NewestLine<'a, B> {
    /// Of no lines yet.
    pub fn new(by: B) -> NewestLine<'a, B>
        ensures by { result.by ≡ by }
        ensures newest { IsNewestOf (B.reads by) [] result.newest }
    {
        NewestLine { by, newest: None }
    }

    /// Returns the text in a line that is to be its version, and the scheme of which it is to be one.
    #[inline(always)]
    pub fn text<'l>(&self, line: &'l [u8]) -> (Scheme, &'l [u8])
        ensures scheme { result.0 ≡ (B.reads self.now.by).scheme }
        ensures text { result.1.now ≡ (B.reads self.now.by).text_of line.now }
    {
        (self.by.scheme(), self.by.text(line))
    }

    /// Takes a line after the others, whose version was parsed from the text in it. Does not allocate.
    #[inline(always)]
    pub fn add(&mut self, version: &AnyVersion<'a>, line: &'a [u8])
        requires { version_in (B.reads self.old.by) line.now ≡ Some (plain_any version.now) }
        ensures by { self.new.by ≡ self.old.by }
        ensures newest { (lines : List (List ℕ))
            → IsNewestOf (B.reads self.old.by) lines self.old.newest
            → IsNewestOf (B.reads self.new.by) (lines ++ line.now ∷ []) self.new.newest }
    {
        match &self.newest {
            Some((_, newest)) => {
                if version.precedence(newest).is_gt() {
                    self.newest = Some((line, *version));
                }
            }
            None => self.newest = Some((line, *version)),
        }
    }

    /// Returns the newest line, or None if there was no line.
    pub fn line(&self) -> Option<&'a [u8]>
        ensures { (lines : List (List ℕ)) → IsNewestOf (B.reads self.now.by) lines self.now.newest
            → rows_in result ≡ newest_alone (B.reads self.now.by) lines }
    {
        match &self.newest {
            Some((line, _)) => Some(line),
            None => None,
        }
    }
}
