//! Python's versions, and their order: PEP 440.

ghost use Rattle.std.specs.Prelude.{◌≡◌, is_some, true};
ghost use Rattle.std.specs.{Option.option_cmp, Option.option_map, Ordering.nat_cmp};
ghost use Rattle.version_order.specs.{keys.Lists.ended_cmp, keys.Lists.none_last_cmp, texts.Front.starts_with_digit};
ghost use Rattle.scheme_pypi.specs.{Order.local_cmp, Order.phase_cmp, Order.pypi_bytes, Order.pypi_cmp, Texts.pypi_of};

use crate::compare::{compare_lists, compare_releases};
use crate::key::{put_dev, put_local, put_phase, put_post, put_release};
use crate::read::{
    Phase, after_release, phase_of, split_dev, split_epoch, split_local, split_post, split_pre,
    without_blanks, without_v,
};
use crate::viable::pypi_length;
use std::cmp::Ordering;
use version_order::{
    Beside, Facts, Kept, Operators, SchemeVersion, Sink, compare_epochs, compare_numbers,
    put_number,
};

/// A version of Python, borrowed from its text. Each piece is the text from where it begins on.
#[derive(Clone, Copy)]
pub struct Pypi<'t> {
    epoch: &'t [u8],
    release: &'t [u8],
    phase: Phase<'t>,
    post: Option<&'t [u8]>,
    dev: Option<&'t [u8]>,
    local: Option<&'t [u8]>,
    ghost release_is: { starts_with_digit release.now ≡ true },
}

impl<'t> Pypi<'t> {
    ghost use Rattle.scheme_pypi.specs.Pypi.{plain_pypi};

    /// Reads a whole text, with blanks around it or none, or returns None if it is no version of Python.
    pub fn from_bytes(text: &'t [u8]) -> Option<Pypi<'t>>
        ensures { option_map plain_pypi result ≡ pypi_of text.now }
    {
        let (epoch, release) = split_epoch(without_v(without_blanks(text)));
        let rest = after_release(release)?;
        let (pre, rest) = split_pre(rest);
        let (post, rest) = split_post(rest);
        let (dev, rest) = split_dev(rest);
        let (local, rest) = split_local(rest);
        if !without_blanks(rest).is_empty() {
            return None;
        }
        Some(Pypi {
            epoch,
            release,
            phase: phase_of(pre, post, dev),
            post,
            dev,
            local,
        })
    }

    /// Compares it with another version.
    pub fn compare(&self, other: &Pypi<'_>) -> Ordering
        ensures { result ≡ pypi_cmp (plain_pypi self.now) (plain_pypi other.now) }
    {
        let order = compare_epochs(self.epoch, other.epoch);
        if order.is_ne() {
            return order;
        }
        let order = compare_releases(self.release, other.release);
        if order.is_ne() {
            return order;
        }
        // Most versions have none of these, so they are compared in one go.
        let order = self
            .compare_phases(other)
            .then(self.compare_posts(other))
            .then(self.compare_devs(other));
        if order.is_ne() {
            return order;
        }
        self.compare_locals(other)
    }

    fn compare_phases(&self, other: &Pypi<'_>) -> Ordering
        ensures { result ≡ phase_cmp (plain_pypi self.now).phase (plain_pypi other.now).phase }
    {
        match (self.phase, other.phase) {
            (Phase::Alpha(digits), Phase::Alpha(others)) => compare_numbers(digits, others).order,
            (Phase::Beta(digits), Phase::Beta(others)) => compare_numbers(digits, others).order,
            (Phase::Candidate(digits), Phase::Candidate(others)) => {
                compare_numbers(digits, others).order
            }
            _ => self.phase.rank().cmp(&other.phase.rank()),
        }
    }

    // No post-release comes before any.
    fn compare_posts(&self, other: &Pypi<'_>) -> Ordering
        ensures { result ≡ option_cmp nat_cmp (plain_pypi self.now).post (plain_pypi other.now).post }
    {
        match (self.post, other.post) {
            (None, None) => Ordering::Equal,
            (None, Some(_)) => Ordering::Less,
            (Some(_), None) => Ordering::Greater,
            (Some(digits), Some(others)) => compare_numbers(digits, others).order,
        }
    }

    // No dev release comes after any.
    fn compare_devs(&self, other: &Pypi<'_>) -> Ordering
        ensures { result ≡ none_last_cmp nat_cmp (plain_pypi self.now).dev (plain_pypi other.now).dev }
    {
        match (self.dev, other.dev) {
            (None, None) => Ordering::Equal,
            (None, Some(_)) => Ordering::Greater,
            (Some(_), None) => Ordering::Less,
            (Some(digits), Some(others)) => compare_numbers(digits, others).order,
        }
    }

    // No local version comes before any.
    fn compare_locals(&self, other: &Pypi<'_>) -> Ordering
        ensures { result
            ≡ option_cmp (ended_cmp local_cmp) (plain_pypi self.now).local (plain_pypi other.now).local }
    {
        match (self.local, other.local) {
            (None, None) => Ordering::Equal,
            (None, Some(_)) => Ordering::Less,
            (Some(_), None) => Ordering::Greater,
            (Some(pieces), Some(others)) => compare_lists(pieces, others),
        }
    }
}

impl<'t> SchemeVersion<'t> for Pypi<'t> {
    ghost use Rattle.std.specs.Ordering.{on};
    ghost use Rattle.scheme_pypi.specs.{Laws.pypi_some, Laws.pypi_writes, Pypi.plain_pypi, Texts.pypi_facts, Texts.pypi_rules};
    ghost use Rattle.version_order.proofs.lemmas.Codes.{writes_on, plain_no_parts};
    ghost use Rattle.version_order.specs.{Facts.key_room, Facts.plain_facts, Keyed.AreWithin, Keyed.by_key, Viable.IsLongestViable};

    ghost rules = { pypi_rules };

    ghost plain = { λ version. by_key (pypi_bytes (plain_pypi version)) };

    ghost order = { on plain_pypi pypi_cmp };

    #[inline(always)]
    fn facts() -> Facts
        ensures facts { plain_facts result ≡ pypi_facts }
        ensures within { AreWithin pypi_rules.read_as (key_room pypi_facts) }
    {
        Facts {
            number: 4,
            name: "pypi",
            aliases: &["python", "pip", "pep440"],
            operators: Operators::Plain,
            per_byte: 2,
            beside: 7,
            marks: b"-+._!",
        }
    }

    #[inline(always)]
    fn read(text: &'t [u8]) -> Option<Pypi<'t>> {
        Pypi::from_bytes(text)
    }

    fn viable_length(text: &[u8]) -> usize
        ensures { IsLongestViable (λ begun. is_some (pypi_rules.read_as begun)) text.now result }
    {
        pypi_length(text)
    }

    #[inline(always)]
    fn compare(&self, other: &Pypi<'t>) -> Ordering {
        Pypi::compare(self, other)
    }

    fn put_key<S: Sink>(&self, sink: &mut S) {
        put_number(sink, self.epoch);
        put_release(sink, self.release);
        put_phase(sink, self.phase);
        put_post(sink, self.post);
        put_dev(sink, self.dev);
        put_local(sink, self.local);
    }

    #[inline(always)]
    fn put_begun<S: Sink>(&self, _kept: Kept, _sink: &mut S) {}

    #[inline(always)]
    fn is_bare(&self) -> bool {
        false
    }

    fn compare_key(&self, bytes: &[u8]) -> Ordering {
        let mut beside = Beside {
            left: bytes,
            order: Ordering::Equal,
        };
        self.put_key(&mut beside);
        beside.order()
    }

    ghost writes = { writes_on plain_pypi pypi_writes };

    ghost some = { λ version. pypi_some (plain_pypi version) };

    ghost begins = { plain_no_parts };
}
