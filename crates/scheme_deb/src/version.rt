//! Debian's versions, and their order: Debian Policy, 5.6.12.

ghost use Rattle.std.specs.Prelude.{◌≡◌, ◌∷◌, ◌&&◌, codes, drop, false, None, Some, true, IfNone, IfSome};
ghost use Rattle.std.specs.{List.list_all, List.prefix_len, List.take_while, Ordering.nat_cmp, declared.cmp.Ordering.TheVariants.Equal, declared.cmp.Ordering.TheVariants.Greater, declared.cmp.Ordering.TheVariants.Less};
ghost use Rattle.version_order.specs.{keys.Codes.Writes, keys.Codes.list_bytes, keys.Lists.ended_cmp, texts.Cuts.cut_first, texts.Front.run_value, texts.Front.starts_with_digit, texts.Front.begins};
ghost use Rattle.scheme_deb.specs.Order.{byte_cmp, byte_code, deb_bytes, deb_cmp, part_bytes, part_cmp, rank};
ghost use Rattle.scheme_deb.specs.Texts.{behind_epoch, deb_of, first_of, is_of_revision, is_of_upstream, is_revision, is_run, is_upstream, part_of};

use crate::rank::{END, rank};
use crate::sets::{OfRevision, OfUpstream};
use crate::viable::left_of_deb;
use std::cmp::Ordering;
use version_order::{
    Beside, Class, Compared, Facts, Kept, Operators, SchemeVersion, Sink, are_of, begins_with,
    common_length, compare_epochs, compare_if_numbers, compare_numbers, cut_last, put_number,
    run_start, split_begun, split_byte, split_epoch,
};

/// The largest epoch.
pub(crate) const LARGEST_EPOCH: &[u8] = b"2147483647";

/// A version of Debian, borrowed from its text: `[epoch:]upstream[-revision]`.
#[derive(Clone, Copy)]
pub struct Deb<'t> {
    epoch: &'t [u8],
    upstream: &'t [u8],
    revision: &'t [u8],
    ghost upstream_is: { list_all is_of_upstream upstream.now ≡ true },
    ghost revision_is: { list_all is_of_upstream revision.now ≡ true },
}

impl<'t> Deb<'t> {
    ghost use Rattle.std.specs.Option.{option_map};
    ghost use Rattle.scheme_deb.specs.Deb.{plain_deb};

    /// Reads a whole text, or returns None if it is no version of Debian.
    #[inline(always)]
    pub fn from_bytes(text: &'t [u8]) -> Option<Deb<'t>>
        ensures { option_map plain_deb result ≡ deb_of text.now }
    {
        match Deb::read_plain(&[], text) {
            Some(version) => Some(version),
            None => Deb::read_slowly(text),
        }
    }

    // Reads any version. A function of its own, so that only this makes room for what the call returns.
    #[inline(always)]
    fn read_slowly(text: &'t [u8]) -> Option<Deb<'t>>
        ensures { option_map plain_deb result ≡ deb_of text.now }
    {
        let version = Deb::read_any(text)?;
        Some(version)
    }

    // Reads what stands behind an epoch if it has at most one hyphen and no colon, as most has, in one pass. Where it
    // returns None, `read_any` and `read_behind` decide.
    #[inline(always)]
    #[tactic(auto, using(crate::proofs::lemmas::Plain::whole_behind, crate::proofs::lemmas::Plain::cut_behind, crate::proofs::lemmas::Plain::whole_no_colon, crate::proofs::lemmas::Plain::cut_no_colon, crate::proofs::lemmas::Plain::not_plain))]
    fn read_plain(epoch: &'t [u8], text: &'t [u8]) -> Option<Deb<'t>>
        ensures behind { IfSome result
            (λ version. behind_epoch (run_value epoch.now) text.now ≡ Some (plain_deb version)) }
        ensures no_epoch { IfSome result (λ version. cut_first 58 text.now ≡ None) }
        ensures none { IfNone result ((starts_with_digit text.now && list_all is_of_revision text.now) ≡ false) }
    {
        if !begins_with(text, Class::Digit) {
            return None;
        }
        let (upstream, rest) = split_begun::<OfRevision>(text);
        match rest {
            [] => Some(Deb {
                epoch,
                upstream,
                revision: &[],
            }),
            [sign, revision @ ..] if *sign == b'-' && is_revision(revision) => Some(Deb {
                epoch,
                upstream,
                revision,
            }),
            _ => None,
        }
    }

    // Reads any version.
    #[inline(never)]
    fn read_any(text: &'t [u8]) -> Option<Deb<'t>>
        ensures { option_map plain_deb result ≡ deb_of text.now }
    {
        let (epoch, rest) = split_epoch(text, LARGEST_EPOCH)?;
        // A text without an epoch is known not to be plain.
        if epoch.is_empty() {
            return Deb::read_behind(epoch, rest);
        }
        match Deb::read_plain(epoch, rest) {
            Some(version) => Some(version),
            None => Deb::read_behind(epoch, rest),
        }
    }

    // Reads what stands behind an epoch.
    #[inline(never)]
    #[tactic(auto, using(crate::proofs::lemmas::Plain::revision_all))]
    fn read_behind(epoch: &'t [u8], text: &'t [u8]) -> Option<Deb<'t>>
        ensures { option_map plain_deb result ≡ behind_epoch (run_value epoch.now) text.now }
    {
        match cut_last(text, b'-') {
            None if is_upstream(text) => Some(Deb {
                epoch,
                upstream: text,
                revision: &[],
            }),
            Some((upstream, revision)) if is_upstream(upstream) && is_revision(revision) => Some(
                Deb {
                    epoch,
                    upstream,
                    revision,
                },
            ),
            _ => None,
        }
    }

    /// Compares it with another version.
    #[inline(always)]
    pub fn compare(&self, other: &Deb<'_>) -> Ordering
        ensures { result ≡ deb_cmp (plain_deb self.now) (plain_deb other.now) }
    {
        compare_epochs(self.epoch, other.epoch)
            .then_with(|| compare_parts(self.upstream, other.upstream))
            .then_with(|| compare_parts(self.revision, other.revision))
    }
}

// Returns whether a text is an upstream version.
#[inline(always)]
fn is_upstream(text: &[u8]) -> bool
    ensures { result ≡ is_upstream text.now }
{
    begins_with(text, Class::Digit) && are_of::<OfUpstream>(text)
}

// Returns whether a text is a revision.
#[inline(always)]
fn is_revision(text: &[u8]) -> bool
    ensures { result ≡ is_revision text.now }
{
    !text.is_empty() && are_of::<OfRevision>(text)
}

// Returns the byte of a run that a text begins with, and the rest, or None if it is empty or begins with a digit.
#[inline(always)]
fn split_run_byte(text: &[u8]) -> Option<(u8, &[u8])>
    ensures some { IfSome result (λ p. (text.now ≡ p.0 ∷ p.1.now) × (is_run p.0 ≡ true)) }
    ensures none { IfNone result (begins is_run text.now ≡ false) }
{
    match text {
        [first, rest @ ..] if !first.is_ascii_digit() => Some((*first, rest)),
        _ => None,
    }
}

// Compares two upstream versions or revisions. Mostly both begin with one digit.
#[inline(always)]
fn compare_parts(x: &[u8], y: &[u8]) -> Ordering
    requires x { list_all is_of_upstream x.now ≡ true }
    requires y { list_all is_of_upstream y.now ≡ true }
    ensures { result ≡ part_cmp (part_of x.now) (part_of y.now) }
{
    match compare_digits(x, y) {
        Some(order) => order,
        None => compare_whole(x, y),
    }
}

// Compares two upstream versions or revisions that begin with a digit alone each, if these differ.
#[inline(always)]
fn compare_digits(x: &[u8], y: &[u8]) -> Option<Ordering>
    ensures { IfSome result (λ order. order ≡ part_cmp (part_of x.now) (part_of y.now)) }
{
    let (digit, rest) = split_byte(x, Class::Digit)?;
    let (other, other_rest) = split_byte(y, Class::Digit)?;
    if digit == other {
        return None;
    }
    if begins_with(rest, Class::Digit) || begins_with(other_rest, Class::Digit) {
        return None;
    }
    Some(digit.cmp(&other))
}

// Compares two upstream versions or revisions of any form.
#[tactic(auto, using(crate::proofs::lemmas::Front::all_rest))]
fn compare_whole(x: &[u8], y: &[u8]) -> Ordering
    requires x { list_all is_of_upstream x.now ≡ true }
    requires y { list_all is_of_upstream y.now ≡ true }
    ensures { result ≡ part_cmp (part_of x.now) (part_of y.now) }
{
    let common = common_length(x, y);
    let (rest, other_rest) = (&x[common..], &y[common..]);
    if !begins_with(rest, Class::Digit) && !begins_with(other_rest, Class::Digit) {
        return first_rank(rest).cmp(&first_rank(other_rest));
    }
    // What both begin with doesn't count, but for the digits just before they differ.
    let start = run_start(x, common, Class::Digit);
    compare_rests(&x[start..], &y[start..])
}

// Returns the rank of the byte of a run that a text begins with, or of the end of the run.
#[inline(always)]
fn first_rank(text: &[u8]) -> u8
    requires { list_all is_of_upstream text.now ≡ true }
    ensures { result ≡ rank (first_of text.now) }
{
    match text {
        [first, ..] => rank(*first),
        [] => END,
    }
}

// Compares what is left of two upstream versions or revisions. Mostly they begin with numbers that differ.
#[inline(always)]
#[tactic(auto, using(crate::proofs::lemmas::Cut::differs, crate::proofs::lemmas::Front::numbers_decide))]
fn compare_rests(x: &[u8], y: &[u8]) -> Ordering
    requires x { list_all is_of_upstream x.now ≡ true }
    requires y { list_all is_of_upstream y.now ≡ true }
    ensures { result ≡ part_cmp (part_of x.now) (part_of y.now) }
{
    match compare_if_numbers(x, y) {
        Some(order) if order.is_ne() => order,
        _ => compare_pairs(x, y),
    }
}

// Compares the same pair by pair: a run of bytes that are no digits, then a number, and so on.
fn compare_pairs(x: &[u8], y: &[u8]) -> Ordering
    requires x { list_all is_of_upstream x.now ≡ true }
    requires y { list_all is_of_upstream y.now ≡ true }
    ensures { result ≡ part_cmp (part_of x.now) (part_of y.now) }
{
    let (mut a, mut b) = (x, y);
    'pairs: loop {
        let runs = compare_runs(a, b);
        if runs.order.is_ne() {
            return runs.order;
        }
        let numbers = compare_numbers(runs.rest, runs.other_rest);
        if numbers.order.is_ne() {
            return numbers.order;
        }
        if numbers.rest.is_empty() && numbers.other_rest.is_empty() {
            return Ordering::Equal;
        }
        a = numbers.rest;
        b = numbers.other_rest;
    }
}

// Compares the runs at the starts of two texts by the ranks of their bytes and of their ends.
#[inline(always)]
fn compare_runs<'t>(x: &'t [u8], y: &'t [u8]) -> Compared<'t>
    requires x { list_all is_of_upstream x.now ≡ true }
    requires y { list_all is_of_upstream y.now ≡ true }
    ensures order { result.order ≡ ended_cmp byte_cmp (take_while is_run x.now) (take_while is_run y.now) }
    ensures rest { result.order ≡ Equal → result.rest.now ≡ drop (prefix_len is_run x.now) x.now }
    ensures other_rest { result.order ≡ Equal
        → result.other_rest.now ≡ drop (prefix_len is_run y.now) y.now }
{
    let (mut a, mut b) = (x, y);
    'bytes: loop {
        match (split_run_byte(a), split_run_byte(b)) {
            (Some((byte, rest)), Some((other, other_rest))) => {
                if byte != other {
                    return Compared::new(rank(byte).cmp(&rank(other)), a, b);
                }
                a = rest;
                b = other_rest;
            }
            (Some((byte, _)), None) => return Compared::new(rank(byte).cmp(&END), a, b),
            (None, Some((other, _))) => return Compared::new(END.cmp(&rank(other)), a, b),
            (None, None) => return Compared::new(Ordering::Equal, a, b),
        }
    }
}

// Writes the bytes of an upstream version or a revision. Inlined, so that a sink's fields stay in registers.
#[inline(always)]
fn put_part<S: Sink>(sink: &mut S, text: &[u8])
    requires text { list_all is_of_upstream text.now ≡ true }
    requires fits { S.fits sink.old (part_bytes (part_of text.now)) }
    ensures { S.takes sink.old (part_bytes (part_of text.now)) sink.new }
{
    let mut left = text;
    'pairs: loop {
        let rest = put_run(sink, left);
        left = put_number(sink, rest);
        if left.is_empty() {
            sink.put(END);
            return;
        }
        if sink.is_decided() {
            return;
        }
    }
}

// Writes the ranks of the run at the start of a text and of its end, and returns the rest.
#[inline(always)]
fn put_run<'t, S: Sink>(sink: &mut S, text: &'t [u8]) -> &'t [u8]
    requires text { list_all is_of_upstream text.now ≡ true }
    requires fits { S.fits sink.old (list_bytes byte_code (take_while is_run text.now)) }
    ensures bytes { S.takes sink.old (list_bytes byte_code (take_while is_run text.now)) sink.new }
    ensures rest { result.now ≡ drop (prefix_len is_run text.now) text.now }
{
    let mut left = text;
    while let Some((byte, rest)) = split_run_byte(left) {
        sink.put(rank(byte));
        left = rest;
    }
    sink.put(END);
    left
}

impl<'t> SchemeVersion<'t> for Deb<'t> {
    ghost use Rattle.std.specs.Prelude.{is_some};
    ghost use Rattle.std.specs.Ordering.{on};
    ghost use Rattle.version_order.proofs.lemmas.Codes.{writes_on, doubled_no_parts};
    ghost use Rattle.version_order.specs.{Facts.key_room, Facts.plain_facts, Keyed.by_key, Keyed.AreWithin, Viable.IsLongestViable};
    ghost use Rattle.scheme_deb.specs.{Deb.deb_facts, Deb.deb_rules, Deb.plain_deb, Laws.deb_some, Laws.deb_writes};

    ghost rules = { deb_rules };

    ghost plain = { λ version. by_key (deb_bytes (plain_deb version)) };

    ghost order = { on plain_deb deb_cmp };

    #[inline(always)]
    fn facts() -> Facts
        ensures facts { plain_facts result ≡ deb_facts }
        ensures within { AreWithin deb_rules.read_as (key_room deb_facts) }
    {
        Facts {
            number: 2,
            name: "deb",
            aliases: &["debian", "ubuntu"],
            operators: Operators::Doubled,
            per_byte: 2,
            beside: 7,
            marks: b"-:",
        }
    }

    #[inline(always)]
    fn read(text: &'t [u8]) -> Option<Deb<'t>> {
        Deb::from_bytes(text)
    }

    fn viable_length(text: &[u8]) -> usize
        ensures { IsLongestViable (λ begun. is_some (deb_rules.read_as begun)) text.now result }
    {
        text.len() - left_of_deb(text).len()
    }

    #[inline(always)]
    fn compare(&self, other: &Deb<'t>) -> Ordering {
        Deb::compare(self, other)
    }

    fn put_key<S: Sink>(&self, sink: &mut S) {
        put_number(sink, self.epoch);
        put_part(sink, self.upstream);
        if sink.is_decided() {
            return;
        }
        put_part(sink, self.revision);
    }

    #[inline(always)]
    fn put_begun<S: Sink>(&self, _kept: Kept, _sink: &mut S) {}

    #[inline(always)]
    fn is_bare(&self) -> bool {
        false
    }

    #[inline(always)]
    fn compare_key(&self, bytes: &[u8]) -> Ordering {
        let mut beside = Beside {
            left: bytes,
            order: Ordering::Equal,
        };
        self.put_key(&mut beside);
        beside.order()
    }

    ghost writes = { writes_on plain_deb deb_writes };

    ghost some = { λ version. deb_some (plain_deb version) };

    ghost begins = { doubled_no_parts };
}
