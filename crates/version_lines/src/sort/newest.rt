//! The newest lines of each group.
ghost use Rattle.std.specs.Prelude.{◌≡◌, ℕ, ◌<◌, length, map, unwrap_or, if◌then◌else◌, List, IfOk, OnErr, OnOk, Some};
ghost use Rattle.std.specs.{BTreeMap.get_by, Cmp.Lexicographic.slice_cmp, List.All, List.AllPairs, Ordering.nat_cmp, Ordering.on, Ordering.then_cmp, Str.bytes_eq};
ghost use Rattle.version_lines.specs.Newest.{first_of_each, newest, are_at_one_place, placed, placed_cmp, placed_entry, placed_start};
ghost use Rattle.version_lines.specs.{Entry.entry_line, Entry.AreInTurn, Entry.IsRead, Sort.Reads, Sort.in_order, declared.sort.newest.Placed.Placed};

use crate::sort::entry::Entry;
use std::alloc::{AllocError, Global};
use std::cmp::Ordering;
use std::collections::BTreeMap;

/// What group a line is of.
pub trait GroupBy {
    // The text that the lines of its group have in common.
    ghost group_of: { Self → List ℕ → List ℕ };

    /// Returns the text that the lines of its group have in common.
    fn group<'a>(&self, line: &'a [u8]) -> &'a [u8]
        ensures { result.now ≡ group_of self.now line.now };
}

/// A line, and the place of the first line of its group among all lines.
#[derive(Clone, Copy)]
struct Placed<'a> {
    entry: Entry<'a>,
    place: usize,
}

impl Placed<'_> {
    // Compares by the places of the groups, then by the keys, the newest first, and then by the places of the keys.
    fn compare(&self, other: &Placed<'_>, keys: &[u8]) -> Ordering
        ensures { result ≡ then_cmp (placed_cmp keys.now) (on placed_start nat_cmp) self.now other.now }
    {
        match self.place.cmp(&other.place) {
            Ordering::Equal => self.entry.compare_keys_in_turn(&other.entry, true, keys),
            order => order,
        }
    }
}

/// Keeps so many lines of each group, the newest, in the order in which the groups first appear. The lines have to stand
/// as they were added. If memory is refused, they stay as they are.
pub fn keep_newest<G: GroupBy>(
    alloc: Global,
    keys: &[u8],
    groups: &G,
    count: usize,
    entries: &mut Vec<Entry<'_>>,
) -> Result<(), AllocError>
    requires { AreInTurn entries.old.items }
    ensures kept { OnOk result ((reads : Reads)
        → All (IsRead reads keys.now) entries.old.items
        → map entry_line entries.new.items
        ≡ newest count (G.group_of groups.now) reads (map entry_line entries.old.items)) }
    ensures stays { OnErr result (entries.new.items ≡ entries.old.items) }
{
    let mut lines = place_lines(alloc, groups, entries.as_slice())?;
    put_newest_first(keys, &mut lines);
    *entries = first_of_each(alloc, count, lines.as_slice())?;
    Ok(())
}

// Returns the lines with the places of their groups.
fn place_lines<'a, G: GroupBy>(
    alloc: Global,
    groups: &G,
    entries: &[Entry<'a>],
) -> Result<Vec<Placed<'a>>, AllocError>
    ensures { IfOk result (λ lines. lines.items
        ≡ map (placed (G.group_of groups.now) (map entry_line entries.now)) entries.now) }
{
    let mut places = BTreeMap::new(alloc);
    let mut lines = Vec::with_capacity(alloc, entries.len())?;
    for entry in entries {
        let group = groups.group(entry.line());
        let place = place_of(&mut places, group, lines.len())?;
        lines.push(Placed {
            entry: *entry,
            place,
        })?;
    }
    Ok(lines)
}

// Returns the place of a group. If it has none, it has this one from now on.
fn place_of<'a>(
    places: &mut BTreeMap<&'a [u8], usize>,
    group: &'a [u8],
    here: usize,
) -> Result<usize, AllocError>
    ensures place { IfOk result (λ place. place
        ≡ unwrap_or (get_by (λ key. slice_cmp nat_cmp group.now key.now) places.old) here) }
    ensures places { IfOk result (λ place. (other : List ℕ)
        → get_by (λ key. slice_cmp nat_cmp other key.now) places.new
        ≡ if bytes_eq group.now other then Some place
        else get_by (λ key. slice_cmp nat_cmp other key.now) places.old) }
{
    if let Some(place) = places.get(group) {
        return Ok(*place);
    }
    places.insert(group, here)?;
    Ok(here)
}

// Puts lines that stand as they were added in the order in which their groups first appear, and the newest of each group
// first. Does not allocate.
fn put_newest_first(keys: &[u8], lines: &mut Vec<Placed<'_>>)
    requires { AllPairs (λ (a b : Placed). placed_start a < placed_start b) lines.old.items }
    ensures { lines.new.items ≡ in_order (placed_cmp keys.now) lines.old.items }
{
    lines.sort_unstable_by(|a, b| a.compare(b, keys));
}

// Returns the first so many lines of each place.
fn first_of_each<'a>(
    alloc: Global,
    count: usize,
    lines: &[Placed<'a>],
) -> Result<Vec<Entry<'a>>, AllocError>
    requires { All (λ (line : Placed). line.place < length lines.now) lines.now }
    ensures { IfOk result (λ kept. kept.items
        ≡ map placed_entry (first_of_each count are_at_one_place lines.now)) }
{
    let mut left = vec![in alloc; count; lines.len()]?;
    let mut kept = Vec::new(alloc);
    for line in lines {
        let more = left[line.place];
        if more > 0 {
            left[line.place] = more - 1;
            kept.push(line.entry)?;
        }
    }
    Ok(kept)
}
