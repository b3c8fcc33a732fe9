//! Where the pieces of a version lie in its text.

ghost use Rattle.std.specs.Prelude.{◌≡◌, List, ℕ};
ghost use Rattle.version_texts.specs.Key.{tail_of};
ghost use Rattle.version_rules.specs.key.Key.{tail_rank};

use version_rules::Kind;

/// What follows the body of a version in the order, by its rank there.
#[derive(Clone, Copy, Debug, PartialEq, Eq)]
pub enum TailKind {
    /// The pre-release of a strict version.
    PreRelease,
    /// Nothing.
    Nothing,
    /// The release of a general version.
    Release,
    /// Further sections of a messy version.
    Sections,
}

impl TailKind {
    /// Returns its place in the order of tails, which is the byte that a tail begins with in a key.
    #[inline(always)]
    #[tactic(auto, using(crate::proofs::lemmas::Pieces::rank_of_sections))]
    pub fn rank(self) -> u8
        ensures { (text : List ℕ) → result ≡ tail_rank (tail_of self text) }
    {
        match self {
            TailKind::PreRelease => 1,
            TailKind::Nothing => 2,
            TailKind::Release => 3,
            TailKind::Sections => 4,
        }
    }
}

/// The kind of a version, what its tail is, and where its pieces lie in its text, as counts of bytes from the start.
/// With the text this is all of a version.
#[derive(Clone, Copy)]
pub struct Shape {
    /// The kind.
    pub kind: Kind,
    /// What follows the body.
    pub tail: TailKind,
    /// Where the body begins: after the epoch and its colon, if there is one.
    pub body: usize,
    /// Where the body ends.
    pub end: usize,
    /// Where the release, or the last section, ends. Metadata follows it.
    pub tail_end: usize,
}
