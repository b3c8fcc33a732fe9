//! What a run over lines tells beside: it may not have done what was meant.

ghost use Rattle.std.specs.Prelude.{◌≡◌, ◌<◌, ℕ, List, Option, is_some, map, true, IfErr, IsTrue};
ghost use Rattle.std.proofs.Common.{Bor};
ghost use Rattle.std.specs.{List.list_any, Option.option_map};
ghost use Rattle.version_commands.specs.Hints.{another_is_newest, asks_by_name, is_another_newest, is_kept_by, is_kept_otherwise, is_newer, keeps_otherwise, line_kept_otherwise, stands_otherwise, takes_whole_lines, StandOtherwise, first_of, is_filter, IsOfFilter, IsOfLines, IsOfNewest, MayTell};
ghost use Rattle.version_answers.specs.Tags.{begins_with_number, begins_with_v, is_bare, order_of_tags, tagged};
ghost use Rattle.version_lines.specs.{Entry.lines_in, Inputs.lines_left, Inputs.texts_of};
ghost use Rattle.version_schemes.specs.any.Order.{any_of};

use crate::bad::ends_in_return;
use crate::lines::pick::Chooses;
use crate::lines::place::ByColumn;
use crate::lines::run::LineRun;
use std::cmp::Ordering;
use version_answers::{begins_with_number, begins_with_v, order_of_tags, tagged};
use version_lines::{Column, GroupBy, KeyedLines, Separators, SortBy};
use version_runs::{Arrangement, ColumnNames, Files, Hint, LineOptions, TaskFault, VersionPlace};
use version_schemes::{AnyVersion, Scheme};

impl<C: Chooses> LineRun<'_, '_, C> {
    /// Tells where `filter` would keep other lines than these by the versions in tags, which may be others where that is
    /// said, and where it kept none.
    pub fn tell_of_filter<F: Files>(&self, kept: &[&[u8]], may_have_tags: bool, files: &F)
        requires hints { MayTell (IsOfFilter self.now.options (C.keeps self.now.chooser.now) (lines_left self.now.input.body)
            (map (λ line. line.now) kept.now)) F.may_hint }
    {
        if may_have_tags && self.keeps_otherwise() {
            files.hint(Hint::Tags);
        }
        let mut lines = self.input.body;
        if let (true, Some(line)) = (kept.is_empty(), lines.next()) {
            let has_returns = !self.options.place.crlf && ends_in_return(line.text);
            files.hint(Hint::NothingKept { has_returns });
        }
    }

    // Whether a line is kept as a whole and isn't by the version in its tag, or the other way round.
    fn keeps_otherwise(&self) -> bool
        ensures { result ≡ keeps_otherwise self.now.options (C.keeps self.now.chooser.now) (lines_left self.now.input.body) }
    {
        self.options.place.spelling.naming.is_bare() && self.any_kept_otherwise()
    }

    // The same where texts are to be versions as a whole.
    fn any_kept_otherwise(&self) -> bool
        ensures { result ≡ list_any (line_kept_otherwise self.now.options (C.keeps self.now.chooser.now))
            (texts_of (lines_left self.now.input.body)) }
    {
        let mut lines = self.input.body;
        while let Some(line) = lines.next() {
            if self.line_kept_otherwise(line.text) {
                return true;
            }
        }
        false
    }

    // Whether a line is kept otherwise by the version in its tag.
    fn line_kept_otherwise(&self, line: &[u8]) -> bool
        ensures { result ≡ line_kept_otherwise self.now.options (C.keeps self.now.chooser.now) line.now }
    {
        let place = &self.options.place;
        is_kept_otherwise(self.chooser, place.spelling.scheme, place.text(line))
    }

    /// Tells where lines that were arranged would be others, or stand otherwise, by the versions in tags.
    pub fn tell_of_arranged<B: SortBy, F: Files>(&self, lines: &KeyedLines<'_, B>, files: &F)
        requires hints { MayTell (IsOfLines self.now.options (C.keeps self.now.chooser.now) (lines_left self.now.input.body)
            (lines_in lines.now)) F.may_hint }
    {
        match self.options.arrangement {
            Arrangement::Newest { group, .. } => {
                self.tell_of_newest(group, first_line(lines), files);
            }
            Arrangement::Sort { reverse, unique } => {
                let place = &self.options.place;
                if place.spelling.naming.is_bare()
                    && (stand_otherwise(reverse, unique, place, lines) || self.keeps_otherwise())
                {
                    files.hint(Hint::Tags);
                }
            }
            Arrangement::Filter { .. } => {}
        }
    }

    /// Tells where another line would be the newest by the versions in tags: of the first group, if there are groups.
    pub fn tell_of_newest<F: Files>(
        &self,
        group: Option<Column<'_>>,
        newest: Option<&[u8]>,
        files: &F,
    )
        requires hints { MayTell (IsOfNewest self.now.options (C.keeps self.now.chooser.now) (lines_left self.now.input.body)
            group (option_map (λ line. line.now) newest)) F.may_hint }
    {
        if self.options.place.spelling.naming.is_bare() && self.another_is_newest(group, newest) {
            files.hint(Hint::Tags);
        }
    }

    // Whether a line of the newest one's group is kept and newer by the versions in tags; or where none is kept, whether
    // one is by these.
    fn another_is_newest(&self, group: Option<Column<'_>>, newest: Option<&[u8]>) -> bool
        ensures { result ≡ list_any (is_another_newest self.now.options (C.keeps self.now.chooser.now)
            group.entry (option_map (λ line. line.now) newest.entry)) (texts_of (lines_left self.now.input.body)) }
    {
        let mut lines = self.input.body;
        while let Some(line) = lines.next() {
            if self.is_another_newest(group, newest, line.text) {
                return true;
            }
        }
        false
    }

    // Whether that is so of a line.
    fn is_another_newest(
        &self,
        group: Option<Column<'_>>,
        newest: Option<&[u8]>,
        line: &[u8],
    ) -> bool
        ensures { result ≡ is_another_newest self.now.options (C.keeps self.now.chooser.now)
            group.entry (option_map (λ line. line.now) newest.entry) line.now }
    {
        let place = &self.options.place;
        let groups = ByColumn {
            crlf: place.crlf,
            column: group,
        };
        match newest {
            Some(newest) => groups.group(newest) == groups.group(line)
                && is_newer(
                    self.chooser,
                    place.spelling.scheme,
                    place.text(newest),
                    place.text(line),
                ),
            None => self.line_kept_otherwise(line),
        }
    }
}

/// Whether a text begins with a `v`, and the version in its tag is kept where the text isn't, or the other way round.
pub fn is_kept_otherwise<C: Chooses>(chooser: &C, scheme: Scheme, text: &[u8]) -> bool
    ensures { result ≡ is_kept_otherwise (C.keeps chooser.now) scheme text.now }
{
    if !begins_with_v(text) {
        return false;
    }
    match tagged(scheme, text) {
        Some(tag) => chooser.keeps(&tag) != is_kept(chooser, scheme, text),
        None => false,
    }
}

// Whether a text is a version that is kept.
fn is_kept<C: Chooses>(chooser: &C, scheme: Scheme, text: &[u8]) -> bool
    ensures { result ≡ is_kept_by (C.keeps chooser.now) (any_of scheme text.now) }
{
    match AnyVersion::read(scheme, text) {
        Some(version) => chooser.keeps(&version),
        None => false,
    }
}

// Returns the first of some lines, if there are any.
fn first_line<'a, B: SortBy>(lines: &KeyedLines<'a, B>) -> Option<&'a [u8]>
    ensures { option_map (λ line. line.now) result ≡ first_of (lines_in lines.now) }
{
    if lines.count() > 0 {
        Some(lines.line(0))
    } else {
        None
    }
}

// Whether one of two lines that follow each other begins with a `v`, and the second would stand first by their tags.
fn stand_otherwise<B: SortBy>(
    reverse: bool,
    unique: bool,
    place: &VersionPlace<'_>,
    lines: &KeyedLines<'_, B>,
) -> bool
    ensures { IsTrue result → StandOtherwise reverse unique place.now (lines_in lines.now) }
{
    for next in 1..lines.count() {
        let (before, after) = (lines.line(next - 1), lines.line(next));
        if stands_otherwise(reverse, unique, place, before, after) {
            return true;
        }
    }
    false
}

// Whether one of two lines begins with a `v`, and by the versions in their tags the second stands before the first, or
// ties with it where of those that tie the first is left alone.
fn stands_otherwise(
    reverse: bool,
    unique: bool,
    place: &VersionPlace<'_>,
    before: &[u8],
    after: &[u8],
) -> bool
    ensures { result ≡ stands_otherwise reverse unique place.now before.now after.now }
{
    match order_of_tags(place.spelling.scheme, place.text(before), place.text(after)) {
        Some(Ordering::Equal) => unique,
        Some(Ordering::Less) => reverse,
        Some(Ordering::Greater) => !reverse,
        None => false,
    }
}

// Whether one of two texts begins with a `v`, and by the versions in their tags the second is kept, and newer.
fn is_newer<C: Chooses>(chooser: &C, scheme: Scheme, newest: &[u8], text: &[u8]) -> bool
    ensures { result ≡ is_newer (C.keeps chooser.now) scheme newest.now text.now }
{
    if !matches!(order_of_tags(scheme, newest, text), Some(Ordering::Less)) {
        return false;
    }
    match tagged(scheme, text) {
        Some(tag) => chooser.keeps(&tag),
        None => false,
    }
}

/// Tells where `-t` is given, and no column is asked for.
pub fn tell_of_separators<F: Files>(
    options: &LineOptions<'_>,
    served: &Result<(), TaskFault<'_>>,
    files: &F,
)
    requires hints { takes_whole_lines options.now ≡ true → F.may_hint Hint.WholeLines }
{
    if matches!(served, Ok(()) | Err(TaskFault::BadLine(_))) && takes_whole_lines(options) {
        files.hint(Hint::WholeLines);
    }
}

// Whether bytes between columns are named, and no column is asked for.
fn takes_whole_lines(options: &LineOptions<'_>) -> bool
    ensures { result ≡ takes_whole_lines options.now }
{
    matches!(options.names.first.separators, Separators::Bytes(_))
        && options.place.column.is_none()
        && options.scheme_column.is_none()
        && !asks_by_name(&options.names)
        && !matches!(
            options.arrangement,
            Arrangement::Newest { group: Some(_), .. }
        )
}

// Whether a column is asked for by its name.
fn asks_by_name(names: &ColumnNames<'_>) -> bool
    ensures { result ≡ asks_by_name names.now }
{
    names.version.is_some() || names.group.is_some() || names.scheme.is_some()
}

/// Tells how many lines of a list, which is the input of a name, have a version, and the name of an earlier line.
pub fn tell_of_repeated<F: Files>(name: &str, repeated: usize, files: &F)
    requires hints { 0 < repeated → F.may_hint (Hint.Repeated name repeated) }
{
    if repeated > 0 {
        files.hint(Hint::Repeated(name, repeated));
    }
}

/// Tells where `filter` was given a version in the place of a file, as `test` takes it. A name without a number is a
/// version too, and most often of a file.
pub fn tell_of_fault<F: Files>(
    options: &LineOptions<'_>,
    served: &Result<(), TaskFault<'_>>,
    files: &F,
)
    requires hints { IfErr served.now (λ fault. (name : Bor (List ℕ)) → fault ≡ TaskFault.Read name
        → is_filter options.now.arrangement ≡ true → begins_with_number name.now ≡ true
        → is_some (any_of options.now.place.spelling.scheme name.now) ≡ true → F.may_hint (Hint.NoFile name)) }
{
    if let (Arrangement::Filter { .. }, Err(TaskFault::Read(name))) = (
        options.arrangement,
        served,
    ) {
        if begins_with_number(name.as_bytes())
            && AnyVersion::read(options.place.spelling.scheme, name.as_bytes()).is_some()
        {
            files.hint(Hint::NoFile(name));
        }
    }
}
