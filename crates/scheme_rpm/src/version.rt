//! RPM's versions, and their order: rpm-version(7), and `rpmvercmp`.

ghost use Rattle.std.specs.Prelude.{◌≡◌, ◌≢◌, drop, None, Some, false, IfNone, IfSome};
ghost use Rattle.std.specs.{Char.is_ascii_alphabetic, List.prefix_len, List.take_while, Option.option_cmp, Option.option_map, declared.cmp.Ordering.TheVariants.Equal};
ghost use Rattle.version_order.specs.{keys.Codes.list_bytes, keys.Codes.text_bytes, keys.Lists.bytes_cmp, texts.Cuts.cut_first, texts.Front.run_value};
ghost use Rattle.scheme_rpm.specs.Order.{held_bytes, item_bytes, item_cmp, items_cmp, release_bytes, rpm_bytes, rpm_cmp};
ghost use Rattle.scheme_rpm.specs.Texts.{behind_epoch, byte_rank, first_of, is_version, items_in, rpm_of, Begins};

use crate::sets::OfRpm;
use crate::viable::left_of_rpm;
use std::cmp::Ordering;
use version_order::{
    Beside, Class, Compared, Facts, Kept, Operators, SchemeVersion, Sink, are_of, begins_with,
    common_length, compare_epochs, compare_numbers, cut_last, put_number, put_run, run_start,
    split_byte, split_epoch, split_set,
};

/// The largest epoch.
pub(crate) const LARGEST_EPOCH: &[u8] = b"4294967295";

/// A version of RPM, borrowed from its text: `[epoch:]version[-release]`.
#[derive(Clone, Copy)]
pub struct Rpm<'t> {
    epoch: &'t [u8],
    version: &'t [u8],
    release: Option<&'t [u8]>,
}

impl<'t> Rpm<'t> {
    ghost use Rattle.std.specs.Option.{option_map};
    ghost use Rattle.scheme_rpm.specs.Rpm.{plain_rpm};

    /// Reads a whole text, or returns None if it is no version of RPM.
    #[inline(always)]
    pub fn from_bytes(text: &'t [u8]) -> Option<Rpm<'t>>
        ensures { option_map plain_rpm result ≡ rpm_of text.now }
    {
        match Rpm::read_plain(&[], text) {
            Some(version) => Some(version),
            None => Rpm::read_slowly(text),
        }
    }

    // Reads any version. A function of its own, so that only this makes room for what the call returns.
    #[inline(always)]
    fn read_slowly(text: &'t [u8]) -> Option<Rpm<'t>>
        ensures { option_map plain_rpm result ≡ rpm_of text.now }
    {
        let version = Rpm::read_any(text)?;
        Some(version)
    }

    // Reads what stands behind an epoch in one pass. Where it returns None, `read_any` and `read_behind` decide.
    #[inline(always)]
    #[tactic(auto, using(crate::proofs::lemmas::Plain::whole_behind, crate::proofs::lemmas::Plain::cut_behind, crate::proofs::lemmas::Plain::whole_no_colon, crate::proofs::lemmas::Plain::cut_no_colon, crate::proofs::lemmas::Plain::not_version))]
    fn read_plain(epoch: &'t [u8], text: &'t [u8]) -> Option<Rpm<'t>>
        ensures behind { IfSome result
            (λ version. behind_epoch (run_value epoch.now) text.now ≡ Some (plain_rpm version)) }
        ensures no_epoch { IfSome result (λ version. cut_first 58 text.now ≡ None) }
        ensures none { IfNone result (is_version text.now ≡ false) }
    {
        let (version, rest) = split_set::<OfRpm>(text);
        if version.is_empty() {
            return None;
        }
        match rest {
            [] => Some(Rpm {
                epoch,
                version,
                release: None,
            }),
            [sign, release @ ..] if *sign == b'-' && is_version(release) => Some(Rpm {
                epoch,
                version,
                release: Some(release),
            }),
            _ => None,
        }
    }

    // Reads any version.
    #[inline(never)]
    fn read_any(text: &'t [u8]) -> Option<Rpm<'t>>
        ensures { option_map plain_rpm result ≡ rpm_of text.now }
    {
        let (epoch, rest) = split_epoch(text, LARGEST_EPOCH)?;
        match Rpm::read_plain(epoch, rest) {
            Some(version) => Some(version),
            None => Rpm::read_behind(epoch, rest),
        }
    }

    // Reads what stands behind an epoch.
    #[inline(never)]
    fn read_behind(epoch: &'t [u8], text: &'t [u8]) -> Option<Rpm<'t>>
        ensures { option_map plain_rpm result ≡ behind_epoch (run_value epoch.now) text.now }
    {
        let (version, release) = match cut_last(text, b'-') {
            None => (text, None),
            Some((version, release)) => (version, Some(release)),
        };
        if !is_version(version) || !release.is_none_or(is_version) {
            return None;
        }
        Some(Rpm {
            epoch,
            version,
            release,
        })
    }

    /// Compares it with another version.
    #[inline(always)]
    pub fn compare(&self, other: &Rpm<'_>) -> Ordering
        ensures { result ≡ rpm_cmp (plain_rpm self.now) (plain_rpm other.now) }
    {
        let epochs = compare_epochs(self.epoch, other.epoch);
        if epochs.is_ne() {
            return epochs;
        }
        let versions = compare_items(self.version, other.version);
        if versions.is_ne() {
            return versions;
        }
        compare_releases(self.release, other.release)
    }
}

// Returns whether a text is a version or a release.
#[inline(always)]
fn is_version(text: &[u8]) -> bool
    ensures { result ≡ is_version text.now }
{
    !text.is_empty() && are_of::<OfRpm>(text)
}

// The ranks of bytes that only separate, and of a tilde, the end, a caret, letters, and numbers.
const SEPARATOR: u8 = 0;

const TILDE: u8 = 1;

const END: u8 = 2;

const CARET: u8 = 3;

const LETTERS: u8 = 4;

const NUMBER: u8 = 5;

// Returns the rank of the first piece of a text, or of the end, and the text from there on.
#[inline(always)]
fn first_item(text: &[u8]) -> (u8, &[u8])
    ensures begins { Begins result.0 result.1.now }
    ensures items { items_in result.1.now ≡ items_in text.now }
{
    let mut left = text;
    while let [byte, rest @ ..] = left {
        let rank = byte_rank(*byte);
        if rank != SEPARATOR {
            return (rank, left);
        }
        left = rest;
    }
    (END, left)
}

// Returns the rank of a piece that begins with a byte, and 0 if the byte only separates.
#[inline(always)]
fn byte_rank(byte: u8) -> u8
    ensures { result ≡ byte_rank byte }
{
    match byte {
        b'~' => TILDE,
        b'^' => CARET,
        _ if byte.is_ascii_digit() => NUMBER,
        _ if byte.is_ascii_alphabetic() => LETTERS,
        _ => SEPARATOR,
    }
}

// Compares two versions or releases, piece by piece.
fn compare_items(x: &[u8], y: &[u8]) -> Ordering
    ensures { result ≡ items_cmp (items_in x.now) (items_in y.now) }
{
    // Often the two are one text, as the versions of two releases.
    if x == y {
        return Ordering::Equal;
    }
    // Pieces that both begin with don't count.
    let start = run_start(x, common_length(x, y), Class::Alphanumeric);
    let (mut a, mut b) = (&x[start..], &y[start..]);
    'items: loop {
        let ((rank, one), (other_rank, other)) = (first_item(a), first_item(b));
        if rank != other_rank || rank == END {
            return rank.cmp(&other_rank);
        }
        let items = compare_alike(rank, one, other);
        if items.order.is_ne() {
            return items.order;
        }
        a = items.rest;
        b = items.other_rest;
    }
}

// Compares the pieces of one rank that two texts begin with.
#[inline(always)]
#[tactic(auto, using(crate::proofs::lemmas::Rpm::letters_first, crate::proofs::lemmas::Rpm::number_first))]
fn compare_alike<'t>(rank: u8, x: &'t [u8], y: &'t [u8]) -> Compared<'t>
    requires x { Begins rank x.now }
    requires y { Begins rank y.now }
    requires more { rank ≢ 2 }
    ensures order { result.order ≡ item_cmp (first_of (items_in x.now)) (first_of (items_in y.now)) }
    ensures rest { result.order ≡ Equal → items_in result.rest.now ≡ drop 1 (items_in x.now) }
    ensures other_rest { result.order ≡ Equal → items_in result.other_rest.now ≡ drop 1 (items_in y.now) }
{
    match rank {
        NUMBER => compare_numbers(x, y),
        LETTERS => compare_letters(x, y),
        _ => Compared::new(Ordering::Equal, &x[1..], &y[1..]),
    }
}

// Compares the letters at the starts of two texts, byte by byte.
#[inline(always)]
fn compare_letters<'t>(x: &'t [u8], y: &'t [u8]) -> Compared<'t>
    ensures order { result.order
        ≡ bytes_cmp (take_while is_ascii_alphabetic x.now) (take_while is_ascii_alphabetic y.now) }
    ensures rest { result.order ≡ Equal
        → result.rest.now ≡ drop (prefix_len is_ascii_alphabetic x.now) x.now }
    ensures other_rest { result.order ≡ Equal
        → result.other_rest.now ≡ drop (prefix_len is_ascii_alphabetic y.now) y.now }
{
    let (mut a, mut b) = (x, y);
    'letters: loop {
        let Some((letter, rest)) = split_byte(a, Class::Letter) else {
            return Compared::new(false.cmp(&begins_with(b, Class::Letter)), a, b);
        };
        let Some((other, other_rest)) = split_byte(b, Class::Letter) else {
            return Compared::new(Ordering::Greater, a, b);
        };
        if letter != other {
            return Compared::new(letter.cmp(&other), a, b);
        }
        a = rest;
        b = other_rest;
    }
}

// Compares two releases. No release comes before any.
#[inline(always)]
fn compare_releases(x: Option<&[u8]>, y: Option<&[u8]>) -> Ordering
    ensures { result ≡ option_cmp items_cmp (option_map (λ text. items_in text.now) x.entry)
        (option_map (λ text. items_in text.now) y.entry) }
{
    match (x, y) {
        (Some(release), Some(other)) => compare_items(release, other),
        _ => x.is_some().cmp(&y.is_some()),
    }
}

// Writes the bytes of a version or a release.
fn put_items<S: Sink>(sink: &mut S, text: &[u8])
    requires { S.fits sink.old (list_bytes item_bytes (items_in text.now)) }
    ensures { S.takes sink.old (list_bytes item_bytes (items_in text.now)) sink.new }
{
    let mut left = text;
    'items: loop {
        let (rank, item) = first_item(left);
        sink.put(rank);
        if rank == END {
            return;
        }
        left = put_item(sink, rank, item);
        if sink.is_decided() {
            return;
        }
    }
}

// Writes what the bytes of a piece have after its rank, and returns the text after the piece.
#[inline(always)]
#[tactic(auto, using(crate::proofs::lemmas::Rpm::letters_first, crate::proofs::lemmas::Rpm::number_first))]
fn put_item<'t, S: Sink>(sink: &mut S, rank: u8, text: &'t [u8]) -> &'t [u8]
    requires text { Begins rank text.now }
    requires more { rank ≢ 2 }
    requires fits { S.fits sink.old (held_bytes (first_of (items_in text.now))) }
    ensures bytes { S.takes sink.old (held_bytes (first_of (items_in text.now))) sink.new }
    ensures rest { items_in result.now ≡ drop 1 (items_in text.now) }
{
    match rank {
        NUMBER => put_number(sink, text),
        LETTERS => put_letters(sink, text),
        _ => &text[1..],
    }
}

// Writes the letters at the start of a text and their end, and returns the rest.
#[inline(always)]
fn put_letters<'t, S: Sink>(sink: &mut S, text: &'t [u8]) -> &'t [u8]
    requires { S.fits sink.old (text_bytes (take_while is_ascii_alphabetic text.now)) }
    ensures bytes { S.takes sink.old (text_bytes (take_while is_ascii_alphabetic text.now)) sink.new }
    ensures rest { result.now ≡ drop (prefix_len is_ascii_alphabetic text.now) text.now }
{
    let rest = put_run(sink, text, Class::Letter);
    sink.put(0);
    rest
}

// Writes the bytes of a release: 1 without one, else 2 and its pieces.
#[inline(always)]
fn put_release<S: Sink>(sink: &mut S, release: Option<&[u8]>)
    requires { S.fits sink.old (release_bytes (option_map (λ text. items_in text.now) release)) }
    ensures { S.takes sink.old (release_bytes (option_map (λ text. items_in text.now) release.entry)) sink.new }
{
    match release {
        None => sink.put(1),
        Some(text) => {
            sink.put(2);
            put_items(sink, text);
        }
    }
}

impl<'t> SchemeVersion<'t> for Rpm<'t> {
    ghost use Rattle.std.specs.Prelude.{is_some};
    ghost use Rattle.std.specs.Ordering.{on};
    ghost use Rattle.version_order.proofs.lemmas.Codes.{writes_on, plain_no_parts};
    ghost use Rattle.version_order.specs.{Facts.key_room, Facts.plain_facts, Keyed.by_key, Keyed.AreWithin, Viable.IsLongestViable};
    ghost use Rattle.scheme_rpm.specs.{Laws.rpm_some, Laws.rpm_writes, Rpm.rpm_facts, Rpm.rpm_rules, Rpm.plain_rpm};

    ghost rules = { rpm_rules };

    ghost plain = { λ version. by_key (rpm_bytes (plain_rpm version)) };

    ghost order = { on plain_rpm rpm_cmp };

    #[inline(always)]
    fn facts() -> Facts
        ensures facts { plain_facts result ≡ rpm_facts }
        ensures within { AreWithin rpm_rules.read_as (key_room rpm_facts) }
    {
        Facts {
            number: 3,
            name: "rpm",
            aliases: &["redhat", "fedora", "suse"],
            operators: Operators::Plain,
            per_byte: 3,
            beside: 3,
            marks: b"-:",
        }
    }

    #[inline(always)]
    fn read(text: &'t [u8]) -> Option<Rpm<'t>> {
        Rpm::from_bytes(text)
    }

    fn viable_length(text: &[u8]) -> usize
        ensures { IsLongestViable (λ begun. is_some (rpm_rules.read_as begun)) text.now result }
    {
        text.len() - left_of_rpm(text).len()
    }

    #[inline(always)]
    fn compare(&self, other: &Rpm<'t>) -> Ordering {
        Rpm::compare(self, other)
    }

    fn put_key<S: Sink>(&self, sink: &mut S) {
        put_number(sink, self.epoch);
        put_items(sink, self.version);
        put_release(sink, self.release);
    }

    #[inline(always)]
    fn put_begun<S: Sink>(&self, _kept: Kept, _sink: &mut S) {}

    #[inline(always)]
    fn is_bare(&self) -> bool {
        false
    }

    #[inline(always)]
    fn compare_key(&self, bytes: &[u8]) -> Ordering {
        let mut beside = Beside {
            left: bytes,
            order: Ordering::Equal,
        };
        self.put_key(&mut beside);
        beside.order()
    }

    ghost writes = { writes_on plain_rpm rpm_writes };

    ghost some = { λ version. rpm_some (plain_rpm version) };

    ghost begins = { plain_no_parts };
}
