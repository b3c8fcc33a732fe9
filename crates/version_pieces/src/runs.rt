//! What ends a part, and the runs of bytes in it, compared byte beside byte: no more is read of one than the other has.

ghost use Rattle.std.specs.Prelude.{◌≡◌, drop};
ghost use Rattle.std.specs.{List.before_first, List.prefix_len, List.take_while, declared.cmp.Ordering.TheVariants.Equal};
ghost use Rattle.version_order.specs.{keys.Lists.bytes_cmp, texts.Cuts.from_first, texts.Front.begins};
ghost use Rattle.version_pieces.specs.Pieces.{delimits, in_run};

use std::cmp::Ordering;
use version_order::{Compared, is_sign};

/// What ends a part: a dot in a body, a dot or a sign in sections.
#[derive(Clone, Copy)]
pub enum Delimiters {
    Dots,
    Marks,
}

impl Delimiters {
    // Whether a byte ends a part.
    #[inline(always)]
    fn contains(self, byte: u8) -> bool
        ensures { result ≡ delimits self byte }
    {
        match self {
            Delimiters::Dots => byte == b'.',
            Delimiters::Marks => byte == b'.' || is_sign(byte),
        }
    }
}

/// A run of bytes at the start of a text: a part, or what stands in it before its first digit.
#[derive(Clone, Copy)]
pub enum Run {
    Part(Delimiters),
    Word(Delimiters),
}

impl Run {
    /// Returns whether a byte is of the run.
    #[inline(always)]
    pub fn contains(self, byte: u8) -> bool
        ensures { result ≡ in_run self byte }
    {
        match self {
            Run::Part(delimiters) => !delimiters.contains(byte),
            Run::Word(delimiters) => !delimiters.contains(byte) && !byte.is_ascii_digit(),
        }
    }

    /// Returns whether a text has the run: its first byte is of it.
    #[inline(always)]
    pub fn begins(self, text: &[u8]) -> bool
        ensures { result ≡ begins (in_run self) text.now }
    {
        match text {
            [first, ..] => self.contains(*first),
            [] => false,
        }
    }
}

/// Compares the runs at the starts of two texts by bytes. A prefix comes before the longer run.
#[inline(always)]
pub fn compare_runs<'t>(x: &'t [u8], y: &'t [u8], run: Run) -> Compared<'t>
    ensures order { result.order
        ≡ bytes_cmp (take_while (in_run run) x.now) (take_while (in_run run) y.now) }
    ensures rest { result.order ≡ Equal
        → result.rest.now ≡ drop (prefix_len (in_run run) x.now) x.now }
    ensures other_rest { result.order ≡ Equal
        → result.other_rest.now ≡ drop (prefix_len (in_run run) y.now) y.now }
{
    let mut place = 0;
    'bytes: while place < x.len()
        && place < y.len()
        && x[place] == y[place]
        && run.contains(x[place])
    {
        place += 1;
    }
    let (rest, other_rest) = (&x[place..], &y[place..]);
    match (run.begins(rest), run.begins(other_rest)) {
        (true, true) => Compared::new(x[place].cmp(&y[place]), rest, other_rest),
        (true, false) => Compared::new(Ordering::Greater, rest, other_rest),
        (false, true) => Compared::new(Ordering::Less, rest, other_rest),
        (false, false) => Compared::new(Ordering::Equal, rest, other_rest),
    }
}

/// Compares two texts by the bytes before their first ends.
#[inline(always)]
#[tactic(auto, using(crate::proofs::lemmas::Pieces::run_is_piece))]
pub fn compare_texts<'a>(delimiters: Delimiters, a: &'a [u8], b: &'a [u8]) -> Compared<'a>
    ensures order { result.order
        ≡ bytes_cmp (before_first (delimits delimiters) a.now) (before_first (delimits delimiters) b.now) }
    ensures rest { result.order ≡ Equal → result.rest.now ≡ from_first (delimits delimiters) a.now }
    ensures other_rest { result.order ≡ Equal
        → result.other_rest.now ≡ from_first (delimits delimiters) b.now }
{
    compare_runs(a, b, Run::Part(delimiters))
}
