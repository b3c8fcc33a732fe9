//! The commands over lines: `sort`, `newest` and `filter`.
ghost use Rattle.std.specs.Prelude.{◌≡◌, ℕ, List, false, map, None, IsTrue, OnOk};
ghost use Rattle.version_commands.specs.Hints.{first_of, IsOfBody, IsOfFilter, IsOfInput, IsOfLines, IsOfNewest, IsOfRun, MayTell};
ghost use Rattle.version_commands.specs.Run.{head_lines, IfOfWord, Ends, Arranges, Finishes};
ghost use Rattle.version_commands.specs.lines.Ordered.{body_of, head_of, arranged_in, ordered_in, versions_in, IsArrangedIn, IsOrdered};
ghost use Rattle.version_commands.specs.{Cause.ComesOfArranging, Cause.ComesOfInput, Files.names_read, Files.reads_standard};
ghost use Rattle.version_commands.specs.lines.{Arranged.arranged, Arranged.is_reversed, Arranged.arranged_by_schemes, Arranged.version_by, Choice.is_kept, Picked.kept_of, Picked.group_text};
ghost use Rattle.version_runs.specs.Place.{reads_of};
ghost use Rattle.version_lines.specs.{Entry.lines_in, Entry.AreRead, Inputs.lines_left, Inputs.PlainLine, Newest.newest_alone, Sort.version_in};

use crate::bad::refuse_bad;
use crate::inputs::read_inputs;
use crate::lines::by_schemes::{LinesOfSchemes, arrange_by_schemes};
use crate::lines::choice::Chooser;
use crate::lines::header::{names_line, options_by, refuse_unnamed};
use crate::lines::pick::{Chooses, EveryVersion, Takes, pick};
use crate::lines::place::{ByColumn, ByVersion};
use crate::lines::run::{Input, LineRun, split_lines, tell};
use std::alloc::{AllocError, Global};
use std::io::Write;
use version_lines::{Column, KeyedLines, Lines, NewestLine, SortBy, Source, WholeLines};
use version_runs::{Arrangement, Files, LineOptions, Stage, TaskFault, VersionPlace};
use version_schemes::{AnyVersion, Scheme};

/// Reads the inputs, and writes those of their lines that the arrangement asks for.
pub fn serve_lines<'w, F: Files, R: Source, W: Write>(
    alloc: Global,
    options: &LineOptions<'w>,
    names: &[&'w str],
    files: &mut F,
    reader: &mut R,
    writer: &mut W,
) -> Result<(), TaskFault<'w>>
    requires hints { MayTell (IsOfRun options.now (map (λ name. name.now) names.now) (F.reads files.old) (R.remaining reader.old))
        F.may_hint }
    ensures served { Finishes F.puts F.refuses F.alters files.old files.new (W.contents writer.old) (W.contents writer.new)
        options.now (IsOrdered options.now (map (λ name. name.now) names.now) (F.reads files.old) (R.remaining reader.old)
        (R.remaining reader.new)) (ComesOfArranging options.now (map (λ name. name.now) names.now) (F.reads files.old)
        (R.may_fail reader.old) (R.remaining reader.old)) result }
    ensures unread { reads_standard (names_read (map (λ name. name.now) names.now)) ≡ false
        → reader.new ≡ reader.old }
    ensures early { IfOfWord (reader.new ≡ reader.old) result }
{
    let scheme = options.place.spelling.scheme;
    let chooser = Chooser::new(alloc, scheme, &options.choice, &options.arrangement)?;
    let inputs = read_inputs(alloc, names, options.end, files, reader)?;
    let lines = Lines::of_inputs(options.end, inputs.as_slice());
    tell(options, files, Stage::Read(lines.bytes()));
    let (head, body) = split_lines(alloc, options.header, lines)?;
    let input = Input {
        head: head.as_slice(),
        body,
    };
    write_asked(alloc, options, &chooser, input, files, writer)
}

// Writes those of the lines of an input that the arrangement asks for, by the columns of names in its header.
fn write_asked<'w, F: Files, W: Write>(
    alloc: Global,
    options: &LineOptions<'w>,
    chooser: &Chooser,
    input: Input<'_, 'w>,
    files: &mut F,
    writer: &mut W,
) -> Result<(), TaskFault<'w>>
    requires hints { (whole : List PlainLine) × (head_lines input ≡ head_of options.now whole)
        × (lines_left input.body ≡ body_of options.now whole)
        × MayTell (IsOfInput (is_kept chooser.now) options.now whole) F.may_hint }
    ensures { (whole : List PlainLine) → head_lines input.entry ≡ head_of options.now whole
        → lines_left input.entry.body ≡ body_of options.now whole
        → Finishes F.puts F.refuses F.alters files.old files.new (W.contents writer.old) (W.contents writer.new) options.now
        (IsArrangedIn options.now (is_kept chooser.now) whole) (ComesOfInput options.now whole) result }
{
    let header = names_line(options, input.head);
    if !input.is_empty() {
        refuse_unnamed(&options.names, header)?;
    }
    let run = LineRun {
        alloc,
        options: options_by(header, options),
        chooser,
        input,
    };
    run.write(files, writer)
}

impl<'w, C: Chooses> LineRun<'_, 'w, C> {
    // Writes the lines that the arrangement asks for: of each scheme, where a column names it.
    fn write<F: Files, W: Write>(&self, files: &mut F, writer: &mut W) -> Result<(), TaskFault<'w>>
        requires hints { MayTell (IsOfBody (C.keeps self.now.chooser.now) self.now.options (lines_left self.now.input.body)) F.may_hint }
        ensures { Arranges F.puts F.refuses F.alters files.old files.new (W.contents writer.old) (W.contents writer.new)
            (versions_in self.now.options) self.now.options self.now.input
            (ordered_in (C.keeps self.now.chooser.now) self.now.options (lines_left self.now.input.body)) result }
    {
        match self.options.scheme_column {
            Some(column) => self.write_by_schemes(column, files, writer),
            None => self.write_arranged(files, writer),
        }
    }

    // Writes the lines that the arrangement asks for. Where each line is its version, all of them are kept and the order is
    // not reversed, nothing of that is asked again for each line.
    fn write_arranged<F: Files, W: Write>(
        &self,
        files: &mut F,
        writer: &mut W,
    ) -> Result<(), TaskFault<'w>>
        requires hints { MayTell (IsOfLines self.now.options (C.keeps self.now.chooser.now) (lines_left self.now.input.body)
            (arranged_in (reads_of self.now.options.place) (C.keeps self.now.chooser.now) self.now.options (lines_left self.now.input.body)))
            F.may_hint }
        ensures { Arranges F.puts F.refuses F.alters files.old files.new (W.contents writer.old) (W.contents writer.new)
            (version_in (reads_of self.now.options.place)) self.now.options self.now.input
            (arranged_in (reads_of self.now.options.place) (C.keeps self.now.chooser.now) self.now.options (lines_left self.now.input.body))
            result }
    {
        if let Arrangement::Filter { .. } = self.options.arrangement {
            return self.write_kept(files, writer);
        }
        let reverse = is_reversed(&self.options.arrangement);
        if self.options.place.is_whole() && self.chooser.keeps_all() && !reverse {
            let run = LineRun {
                alloc: self.alloc,
                options: self.options,
                chooser: &EveryVersion,
                input: self.input,
            };
            return run.write_keyed(WholeLines, files, writer);
        }
        let by = ByVersion {
            place: self.options.place,
            reverse,
        };
        self.write_keyed(by, files, writer)
    }

    // Writes the lines that are kept, those of each scheme arranged, one scheme after another.
    fn write_by_schemes<F: Files, W: Write>(
        &self,
        column: Column<'_>,
        files: &mut F,
        writer: &mut W,
    ) -> Result<(), TaskFault<'w>>
        ensures { Arranges F.puts F.refuses F.alters files.old files.new (W.contents writer.old) (W.contents writer.new)
            (version_by self.now.options.place column.entry) self.now.options self.now.input
            (arranged_by_schemes self.now.options.place column.entry self.now.options.arrangement
            (kept_of (version_by self.now.options.place column.entry) (C.keeps self.now.chooser.now)
            (lines_left self.now.input.body))) result }
    {
        let place = self.options.place;
        let mut kept = LinesOfSchemes {
            place,
            column,
            lines: Vec::new(self.alloc),
        };
        let picked = pick(self.alloc, &mut kept, self.chooser, self.input.body)?;
        let bad = picked.bad.as_slice();
        refuse_bad(self.alloc, &self.options, bad)?;
        self.tell(files, Stage::Kept(kept.lines.len()));
        let lines = arrange_by_schemes(
            self.alloc,
            self.options.arrangement,
            &place,
            column,
            kept.lines.as_slice(),
        )?;
        self.tell(files, Stage::Ordered(lines.len()));
        self.write_lines(bad, &lines, files, writer)
    }

    // Writes the lines that are kept, in the order of the input.
    fn write_kept<F: Files, W: Write>(
        &self,
        files: &mut F,
        writer: &mut W,
    ) -> Result<(), TaskFault<'w>>
        requires hints { MayTell (IsOfFilter self.now.options (C.keeps self.now.chooser.now) (lines_left self.now.input.body)
            (kept_of (version_in (reads_of self.now.options.place)) (C.keeps self.now.chooser.now)
            (lines_left self.now.input.body))) F.may_hint }
        ensures { Arranges F.puts F.refuses F.alters files.old files.new (W.contents writer.old) (W.contents writer.new)
            (version_in (reads_of self.now.options.place)) self.now.options self.now.input
            (kept_of (version_in (reads_of self.now.options.place)) (C.keeps self.now.chooser.now)
            (lines_left self.now.input.body)) result }
    {
        let mut kept = KeptLines {
            place: self.options.place,
            lines: Vec::new(self.alloc),
        };
        let picked = pick(self.alloc, &mut kept, self.chooser, self.input.body)?;
        let bad = picked.bad.as_slice();
        refuse_bad(self.alloc, &self.options, bad)?;
        self.tell(files, Stage::Kept(kept.lines.len()));
        let written = self.write_lines(bad, &kept.lines, files, writer);
        if written.is_ok() {
            self.tell_of_filter(kept.lines.as_slice(), picked.may_have_tags, files);
        }
        written
    }

    // Writes the lines that are kept in the order of their versions, or the newest of them. Not inlined, so that each of
    // its forms has the registers for itself.
    #[inline(never)]
    fn write_keyed<B: SortBy + Copy, F: Files, W: Write>(
        &self,
        by: B,
        files: &mut F,
        writer: &mut W,
    ) -> Result<(), TaskFault<'w>>
        requires reversed { is_reversed self.now.options.arrangement ≡ B.is_reversed by }
        requires hints { MayTell (IsOfLines self.now.options (C.keeps self.now.chooser.now) (lines_left self.now.input.body)
            (arranged_in (B.reads by) (C.keeps self.now.chooser.now) self.now.options (lines_left self.now.input.body))) F.may_hint }
        ensures { Arranges F.puts F.refuses F.alters files.old files.new (W.contents writer.old) (W.contents writer.new)
            (version_in (B.reads by)) self.now.options self.now.input
            (arranged_in (B.reads by) (C.keeps self.now.chooser.now) self.now.options (lines_left self.now.input.body)) result }
    {
        if asks_for_one(&self.options) {
            return self.write_newest(by, files, writer);
        }
        let arrangement = self.options.arrangement;
        let mut kept = KeyedLines::new(self.alloc, by, self.input.body.bytes())?;
        let picked = pick(self.alloc, &mut kept, self.chooser, self.input.body)?;
        let bad = picked.bad.as_slice();
        refuse_bad(self.alloc, &self.options, bad)?;
        self.tell(files, Stage::Kept(kept.count()));
        arrange(self.alloc, arrangement, self.options.place.crlf, &mut kept)?;
        self.tell(files, Stage::Ordered(kept.count()));
        let written = self.write_lines(bad, &kept, files, writer);
        if written.is_ok() && picked.may_have_tags {
            self.tell_of_arranged(&kept, files);
        }
        written
    }

    // Writes the newest of the lines that are kept.
    fn write_newest<B: SortBy, F: Files, W: Write>(
        &self,
        by: B,
        files: &mut F,
        writer: &mut W,
    ) -> Result<(), TaskFault<'w>>
        requires hints { MayTell (IsOfNewest self.now.options (C.keeps self.now.chooser.now) (lines_left self.now.input.body) None (first_of
            (newest_alone (B.reads by) (kept_of (version_in (B.reads by)) (C.keeps self.now.chooser.now)
            (lines_left self.now.input.body))))) F.may_hint }
        ensures { Arranges F.puts F.refuses F.alters files.old files.new (W.contents writer.old) (W.contents writer.new)
            (version_in (B.reads by)) self.now.options self.now.input
            (newest_alone (B.reads by) (kept_of (version_in (B.reads by)) (C.keeps self.now.chooser.now)
            (lines_left self.now.input.body))) result }
    {
        let mut newest = NewestLine::new(by);
        let picked = pick(self.alloc, &mut newest, self.chooser, self.input.body)?;
        let bad = picked.bad.as_slice();
        refuse_bad(self.alloc, &self.options, bad)?;
        let line = newest.line();
        let written = self.write_lines(bad, &line, files, writer);
        if written.is_ok() && picked.may_have_tags {
            self.tell_of_newest(None, line, files);
        }
        written
    }
}

// Whether the newest line is asked for, and nothing told while lines are read: the others needn't be kept.
fn asks_for_one(options: &LineOptions<'_>) -> bool
    ensures { IsTrue result → options.now.arrangement ≡ Arrangement.Newest 1 None }
{
    matches!(
        options,
        LineOptions {
            progress: false,
            arrangement: Arrangement::Newest {
                count: 1,
                group: None,
            },
            ..
        }
    )
}

/// Arranges lines that stand as they were added.
pub fn arrange<B: SortBy>(
    alloc: Global,
    arrangement: Arrangement<'_>,
    crlf: bool,
    lines: &mut KeyedLines<'_, B>,
) -> Result<(), AllocError>
    requires read { AreRead B.reads lines.old }
    requires reversed { is_reversed arrangement ≡ B.is_reversed lines.old.by }
    ensures { OnOk result (lines_in lines.new ≡ arranged (B.reads lines.old.by) (group_text crlf)
        arrangement.entry (lines_in lines.old)) }
{
    match arrangement {
        Arrangement::Sort { unique, .. } => {
            if unique {
                lines.put_first_of_ties();
            } else {
                lines.put_in_order();
            }
            Ok(())
        }
        Arrangement::Newest { count, group } => {
            let groups = ByColumn {
                crlf,
                column: group,
            };
            lines.keep_newest(alloc, count, &groups)
        }
        Arrangement::Filter { .. } => Ok(()),
    }
}

/// Whether lines are arranged from the last to the first.
pub fn is_reversed(arrangement: &Arrangement<'_>) -> bool
    ensures { result ≡ is_reversed arrangement.now }
{
    matches!(arrangement, Arrangement::Sort { reverse: true, .. })
}

// Lines that are kept.
#[derive(Drop)]
struct KeptLines<'w, 'a> {
    place: VersionPlace<'w>,
    lines: Vec<&'a [u8]>,
}

impl<'a> Takes<'a> for KeptLines<'_, 'a> {
    ghost use Rattle.std.specs.Prelude.{◌≡◌, ⊤, map};

    ghost versions = { λ kept. version_in (reads_of kept.place) };

    ghost IsReady = { λ _. ⊤ };

    ghost HasTaken = { λ _ kept lines. map (λ line. line.now) kept.lines.items ≡ lines };

    #[inline(always)]
    fn text(&self, line: &'a [u8]) -> Option<(Scheme, &'a [u8])> {
        Some((self.place.spelling.scheme, self.place.text(line)))
    }

    fn take(&mut self, _version: &AnyVersion<'a>, line: &'a [u8]) -> Result<(), AllocError> {
        self.lines.push(line)?;
        Ok(())
    }
}
