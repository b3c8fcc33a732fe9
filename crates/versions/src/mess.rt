//! Messy versions. Every call goes along the sections by a loop, without recursion.

ghost use Rattle.std.specs.Prelude.{◌≡◌, ◌<◌, [], Some, IfOk, IsSome, OnErr, length, map};
ghost use Rattle.std.specs.{Cmp.eq_by_cmp_equiv, Cmp.on_equiv, Cmp.on_per, Cmp.partial_equiv_from_equiv, Option.is_some, Option.option_map, Ordering.eq_by_cmp, Ordering.on};
ghost use Rattle.std.proofs.Common.{ap};
ghost use Rattle.version_order.specs.{keys.Codes.same_where_tied, texts.Front.repeated};
ghost use Rattle.version_parts.specs.Body.{Reads};
ghost use Rattle.versions.specs.Mess.{mess_fed, plain_further, plain_mess, plain_mess_ref, plain_section};
ghost use Rattle.versions.specs.Errors.{IllegalMess, ReadsOr};
ghost use Rattle.version_rules.specs.grammar.Mess.{behind_colons, further_front, mess_front, mess_of, mess_plain_cmp, mess_text, nth_number, section_front};
ghost use Rattle.version_rules.specs.laws.Versioning.{mess_total, messes_same};

use crate::errors::{Error, ReadError, or_illegal};
use std::alloc::{AllocError, Global};
use std::cmp::Ordering;
use std::fmt;
use std::hash::{Hash, Hasher};
use version_parts::lists::{compare_lists, copy_list, write_dotted};
use version_parts::{MChunk, SectionRef, Sep, scan};

/// A messy version: chunks with dots between, then perhaps a sign and a further messy version, such as
/// `1.6a+2014+m872b-1` or `2:10.2`.
pub struct Mess {
    /// The chunks of the first section. A parsed version has at least one here.
    pub chunks: Vec<MChunk>,
    /// The sign and the further sections that follow the first section.
    pub next: Option<(Sep, Box<Mess>)>,
}

impl Mess {
    /// Parses the whole text as a messy version; returns None if it does not parse. Copies the chunks; allocates
    /// nothing for None. `Err` means allocation failure.
    pub fn new(alloc: Global, s: &str) -> Result<Option<Mess>, AllocError>
        // What the text spells, or None: the law `messy_versions: answer`.
        ensures exact { IfOk result (λ o. option_map plain_mess o ≡ mess_of s.now) }
        // An allocation fails only if the text spells a version, since each has chunks.
        ensures memory { OnErr result (IsSome (mess_of s.now)) }
    {
        match MessRef::new(s) {
            Some(version) => Ok(Some(version.build(alloc)?)),
            None => Ok(None),
        }
    }

    /// Returns whether the whole text parses as a messy version, so that `new` returns one.
    pub fn is_spelled_by(s: &str) -> bool
        ensures { result ≡ is_some (mess_of s.now) }
    {
        MessRef::new(s).is_some()
    }

    /// Parses the whole text as a messy version. Fails with `Illegal` if it does not parse: the error is `IllegalMess`
    /// with the text. Fails with `Memory` if an allocation fails, for the version or for that text.
    pub fn from_str(alloc: Global, s: &str) -> Result<Mess, ReadError>
        ensures { ReadsOr plain_mess (λ _. Unit {0}) (IllegalMess s.now) result (mess_of s.now) }
    {
        or_illegal(alloc, Mess::new(alloc, s), s, Error::IllegalMess)
    }

    /// Parses a prefix as a messy version; returns it and the rest, or None. It parses chunks with dots or signs
    /// between, and stops before a dot or sign that no chunk follows. Copies the chunks; allocates nothing for None.
    /// `Err` means allocation failure.
    pub fn parse(alloc: Global, i: &str) -> Result<Option<(Mess, &str)>, AllocError>
        ensures { Reads plain_mess (λ _. Unit {0}) result (mess_front i.now) }
    {
        let Some((first, behind)) = read_section(alloc, i)? else {
            return Ok(None);
        };
        let (more, rest) = read_all_further(alloc, behind)?;
        Ok(Some((link(alloc, first, more)?, rest)))
    }

    /// Returns the number of the chunk at `x`, counted from 0, in the first section that no colon follows, or None if
    /// the chunk is not `Digits`. So an epoch is skipped.
    #[tactic(auto, using(crate::proofs::lemmas::Mess::first_is, crate::proofs::lemmas::Mess::lent_item, crate::proofs::lemmas::Mess::nth_cites))]
    pub fn nth(&self, x: usize) -> Option<u32>
        ensures { result ≡ nth_number (plain_mess self.now) x }
    {
        skip_colons(self).chunks.get(x)?.number()
    }

    /// Returns a copy. `Err` means allocation failure.
    pub fn clone(&self, alloc: Global) -> Result<Mess, AllocError>
        ensures { IfOk result (λ copy. plain_mess copy ≡ plain_mess self.now) }
    {
        let first = copy_list(alloc, self.chunks.as_slice())?;
        let mut more = Vec::new(alloc);
        let mut current = self;
        while let Some((sign, section)) = &current.next {
            let chunks = copy_list(alloc, section.chunks.as_slice())?;
            more.push((*sign, chunks))?;
            current = section;
        }
        link(alloc, first, more)
    }

    /// Returns the version without chunks and further sections.
    pub fn default_in(alloc: Global) -> Mess
        ensures { plain_mess result ≡ record { first = []; more = [] } }
    {
        Mess {
            chunks: Vec::new(alloc),
            next: None,
        }
    }

    // Compares two versions field by field.
    pub(crate) fn compare_plain(&self, other: &Mess) -> Ordering
        ensures { result ≡ mess_plain_cmp (plain_mess self.now) (plain_mess other.now) }
    {
        let mut a = self;
        let mut b = other;
        'sections: loop {
            let sections = compare_lists(a.chunks.as_slice(), b.chunks.as_slice());
            if sections != Ordering::Equal {
                return sections;
            }
            match (&a.next, &b.next) {
                (Some((sign, after)), Some((other_sign, other_after))) => {
                    let signs = sign.compare_plain(*other_sign);
                    if signs != Ordering::Equal {
                        return signs;
                    }
                    a = after;
                    b = other_after;
                }
                (Some(_), None) => return Ordering::Greater,
                (None, Some(_)) => return Ordering::Less,
                (None, None) => return Ordering::Equal,
            }
        }
    }
}

impl Drop for Mess {
    fn drop(mut self) {
        loop {
            let Mess { chunks: _, next } = self;
            match next {
                None => return,
                Some((_, section)) => self = Box::into_inner(section),
            }
        }
    }
}

impl fmt::Display for Mess {
    ghost output = { λ m. Some (mess_text (plain_mess m)) };

    fn fmt<W: fmt::Write>(&self, f: &mut fmt::Formatter<W>) -> fmt::Result {
        write_dotted(self.chunks.as_slice(), f)?;
        let mut current = self;
        while let Some((sign, section)) = &current.next {
            write!(f, "{sign}")?;
            write_dotted(section.chunks.as_slice(), f)?;
            current = section;
        }
        Ok(())
    }
}

/// Compares every field of every section.
impl PartialEq for Mess {
    ghost eq = { on plain_mess (eq_by_cmp mess_plain_cmp) };

    ghost laws = { on_per plain_mess (partial_equiv_from_equiv (eq_by_cmp_equiv mess_total)) };

    fn eq(&self, other: &Mess) -> bool {
        self.compare_plain(other).is_eq()
    }
}

impl Eq for Mess {
    ghost laws = { on_equiv plain_mess (eq_by_cmp_equiv mess_total) };
}

/// Hashes the chunks, then whether more follows, then the sign and what follows it.
impl Hash for Mess {
    ghost hash_input = { λ m. mess_fed (plain_mess m) };

    ghost respects_eq = { λ a b tied. ap mess_fed (same_where_tied messes_same tied) };

    fn hash<H: Hasher>(&self, state: &mut H) {
        self.chunks.hash(state);
        let mut current = self;
        while let Some((sign, section)) = &current.next {
            state.write_u8(1);
            sign.hash(state);
            section.chunks.hash(state);
            current = section;
        }
        state.write_u8(0);
    }
}

// Returns the version from the first section that no colon follows.
fn skip_colons(mess: &Mess) -> &Mess
    ensures { (plain_mess result.now).first
        ≡ behind_colons (plain_mess mess.now).first (plain_mess mess.now).more }
{
    let mut current = mess;
    while let Some((sign, section)) = &current.next {
        match sign {
            Sep::Colon => current = section,
            _ => return current,
        }
    }
    current
}

// Makes a version of its first section and its further ones, from the end.
pub(crate) fn link(
    alloc: Global,
    chunks: Vec<MChunk>,
    mut more: Vec<(Sep, Vec<MChunk>)>,
) -> Result<Mess, AllocError>
    ensures first { IfOk result (λ m. (plain_mess m).first ≡ plain_section chunks) }
    ensures more { IfOk result (λ m. (plain_mess m).more ≡ map plain_further more.items) }
{
    let mut next = None;
    while let Some((sign, chunks)) = more.pop() {
        next = Some((sign, Box::new(alloc, Mess { chunks, next })?));
    }
    Ok(Mess { chunks, next })
}

/// A messy version borrowed from its text: its first section, and the text of the further sections with their signs.
#[derive(Drop)]
pub struct MessRef<'a> {
    pub(crate) first: SectionRef<'a>,
    pub(crate) rest: &'a str,
}

impl<'a> MessRef<'a> {
    // Parses the whole text as a messy version.
    #[tactic(auto, using(crate::proofs::lemmas::Mess::whole_mess))]
    #[inline(always)]
    pub(crate) fn new(s: &'a str) -> Option<MessRef<'a>>
        ensures { option_map plain_mess_ref result ≡ mess_of s.now }
    {
        let (first, rest) = SectionRef::scan(s)?;
        if !skip_all_further(rest).is_empty() {
            return None;
        }
        Some(MessRef { first, rest })
    }

    // Copies the version into an owned one.
    pub(crate) fn build(&self, alloc: Global) -> Result<Mess, AllocError>
        ensures { IfOk result (λ m. plain_mess m ≡ plain_mess_ref self.now) }
    {
        let first = self.first.build(alloc)?;
        let (more, _) = read_all_further(alloc, self.rest)?;
        link(alloc, first, more)
    }
}

// Returns what follows the further sections that the text begins with.
#[tactic(auto, using(crate::proofs::lemmas::Mess::left_last, crate::proofs::lemmas::Mess::left_next, crate::proofs::lemmas::Mess::left_shorter))]
fn skip_all_further(i: &str) -> &str
    ensures { result.now ≡ (repeated further_front (length i.now) i.now).1 }
{
    let mut rest = i;
    while let Some(after) = skip_further(rest) {
        rest = after;
    }
    rest
}

// Returns what follows the sign and the section that the text begins with.
#[tactic(auto, unfolding(version_rules::specs::grammar::Mess::further_front))]
fn skip_further(i: &str) -> Option<&str>
    ensures { option_map (λ r. r.now) result ≡ option_map (λ p. p.1) (further_front i.now) }
{
    let (_, behind) = scan::sign(i)?;
    Some(SectionRef::scan(behind)?.1)
}

// Parses a prefix as a section; returns its chunks, copied, and the rest.
fn read_section(alloc: Global, i: &str) -> Result<Option<(Vec<MChunk>, &str)>, AllocError>
    ensures { Reads plain_section (λ _. Unit {0}) result (section_front i.now) }
{
    let Some((section, rest)) = SectionRef::scan(i) else {
        return Ok(None);
    };
    Ok(Some((section.build(alloc)?, rest)))
}

// Parses a prefix as a sign and a section; returns them and the rest.
#[tactic(auto, unfolding(version_rules::specs::grammar::Mess::further_front))]
fn read_further(alloc: Global, i: &str) -> Result<Option<((Sep, Vec<MChunk>), &str)>, AllocError>
    ensures { Reads plain_further (λ _. Unit {0}) result (further_front i.now) }
{
    let Some((sign, behind)) = scan::sign(i) else {
        return Ok(None);
    };
    let Some((chunks, rest)) = read_section(alloc, behind)? else {
        return Ok(None);
    };
    Ok(Some(((sign, chunks), rest)))
}

// Parses a prefix as further sections, as many as parse; returns them and the rest.
fn read_all_further(alloc: Global, i: &str) -> Result<(Vec<(Sep, Vec<MChunk>)>, &str), AllocError>
    ensures { IfOk result (λ r. (map plain_further r.0.items, r.1.now)
        ≡ repeated further_front (length i.now) i.now) }
{
    let mut more = Vec::new(alloc);
    let mut rest = i;
    while let Some((further, after)) = read_further(alloc, rest)? {
        more.push(further)?;
        rest = after;
    }
    Ok((more, rest))
}
