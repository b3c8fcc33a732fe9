//! Sets of bytes of a scheme's own, and runs of them.

ghost use Rattle.std.specs.Prelude.{◌≡◌, Bool, drop, true, ℕ};
ghost use Rattle.std.specs.List.{list_all, prefix_len, take_while};
ghost use Rattle.version_order.specs.texts.Front.{begins};

/// A set of bytes that a scheme's texts are made of.
pub trait ByteSet {
    // A byte is one of them.
    ghost has: { ℕ → Bool };

    /// Returns whether a byte is one of them: by a table, which is faster than comparisons.
    fn has(byte: u8) -> bool
        ensures { result ≡ has byte };
}

/// Returns the longest run of bytes of a set at the start of a text, which may be empty, and the rest.
#[inline(always)]
pub fn split_set<B: ByteSet>(text: &[u8]) -> (&[u8], &[u8])
    ensures run { result.0.now ≡ take_while B.has text.now }
    ensures rest { result.1.now ≡ drop (prefix_len B.has text.now) text.now }
{
    split_before::<B>(text, after_set::<B>(text))
}

/// Returns the same of a text that begins with a byte of the set.
#[inline(always)]
pub fn split_begun<B: ByteSet>(text: &[u8]) -> (&[u8], &[u8])
    requires { begins B.has text.now ≡ true }
    ensures run { result.0.now ≡ take_while B.has text.now }
    ensures rest { result.1.now ≡ drop (prefix_len B.has text.now) text.now }
{
    split_before::<B>(text, after_more::<B>(&text[1..]))
}

// Returns the same by what follows the run.
#[inline(always)]
fn split_before<'t, B: ByteSet>(text: &'t [u8], rest: &[u8]) -> (&'t [u8], &'t [u8])
    requires { rest.now ≡ drop (prefix_len B.has text.now) text.now }
    ensures run { result.0.now ≡ take_while B.has text.now }
    ensures rest { result.1.now ≡ drop (prefix_len B.has text.now) text.now }
{
    text.split_at(text.len() - rest.len())
}

/// Returns whether all bytes of a text are of a set.
#[inline(always)]
#[tactic(auto, using(crate::proofs::lemmas::Runs::run_is))]
pub fn are_of<B: ByteSet>(text: &[u8]) -> bool
    ensures { result ≡ list_all B.has text.now }
{
    after_set::<B>(text).is_empty()
}

// Returns a text without the bytes of a set that it begins with.
#[inline(always)]
fn after_set<B: ByteSet>(text: &[u8]) -> &[u8]
    ensures { result.now ≡ drop (prefix_len B.has text.now) text.now }
{
    // The first look-up, before the loop, keeps the address of the table out of the loop.
    let [first, rest @ ..] = text else {
        return text;
    };
    if !B::has(*first) {
        return text;
    }
    after_more::<B>(rest)
}

// Returns the same, for what follows a byte of the set. Four bytes a turn share what a turn costs.
#[inline(always)]
fn after_more<B: ByteSet>(text: &[u8]) -> &[u8]
    ensures { result.now ≡ drop (prefix_len B.has text.now) text.now }
{
    let mut left = text;
    while let [a, b, c, d, rest @ ..] = left {
        if !B::has(*a) {
            return left;
        }
        if !B::has(*b) {
            return &left[1..];
        }
        if !B::has(*c) {
            return &left[2..];
        }
        if !B::has(*d) {
            return &left[3..];
        }
        left = rest;
    }
    after_few::<B>(left)
}

// Returns the same, a byte a turn.
#[inline(always)]
fn after_few<B: ByteSet>(text: &[u8]) -> &[u8]
    ensures { result.now ≡ drop (prefix_len B.has text.now) text.now }
{
    let mut left = text;
    while let [byte, rest @ ..] = left {
        if !B::has(*byte) {
            return left;
        }
        left = rest;
    }
    left
}
