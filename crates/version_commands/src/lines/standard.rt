//! The lines of standard input: with the kinds of their versions, or those that a list of requirements matches.
ghost use Rattle.std.specs.Prelude.{◌≡◌, ℕ, List};
ghost use Rattle.version_commands.specs.{Fault.ComesOfMatching, Fault.ComesOfStandard, Output.label_of, Output.labelled, Output.AreLabelled, Output.AreMatched, Run.IfOfWord, Run.Ends};
ghost use Rattle.version_lines.specs.Lines.{answer_text};

use crate::inputs::read_standard;
use crate::lines::write::{whole_if, write_answers};
use std::alloc::Global;
use std::io::Write;
use version_lines::{Answer, LineCommand, Source};
use version_requirements::RequirementsRef;
use version_rules::Kind;
use version_runs::{Labels, TaskFault};
use version_texts::VersioningRef;

/// Writes the lines of the reader with their labels.
pub fn write_labels<'w, R: Source, W: Write>(
    alloc: Global,
    labels: Labels,
    reader: &mut R,
    writer: &mut W,
) -> Result<(), TaskFault<'w>>
    ensures { Ends (AreLabelled labels (R.remaining reader.old) (R.remaining reader.new))
        (ComesOfStandard (R.may_fail reader.old)) (W.contents writer.old) (W.contents writer.new) result }
{
    let input = read_standard(alloc, reader)?;
    let labelled = Labelled { labels };
    write_answers(alloc, &labelled, b'\n', input.as_slice(), writer)
}

// Lines with their labels.
#[derive(Clone, Copy)]
struct Labelled {
    labels: Labels,
}

impl LineCommand for Labelled {
    ghost use Rattle.version_commands.specs.Output.{label_line};

    ghost line_output = { λ labelled. label_line labelled.labels };

    #[inline(always)]
    fn answer(&self, line: &[u8]) -> Answer {
        answer(label(self.labels, line))
    }
}

// Returns the kind that labels a line, if one does.
#[inline(always)]
fn label(labels: Labels, line: &[u8]) -> Option<Kind>
    ensures { result ≡ label_of labels line.now }
{
    let kind = VersioningRef::from_bytes(line)?.kind();
    match (labels, kind) {
        (Labels::Every, _) | (Labels::Strict, Kind::Ideal) => Some(kind),
        (Labels::Strict, _) => None,
    }
}

// Returns what is written for a line with this label.
#[inline(always)]
fn answer(kind: Option<Kind>) -> Answer
    ensures { (end : ℕ) → (line : List ℕ) → answer_text end result line ≡ labelled kind end line }
{
    match kind {
        Some(Kind::Ideal) => Answer::Line(b"ideal "),
        Some(Kind::General) => Answer::Line(b"general "),
        Some(Kind::Complex) => Answer::Line(b"complex "),
        None => Answer::Text(b"none"),
    }
}

/// Writes those lines of the reader that are versions which the list matches that a word is.
pub fn write_matched<'w, R: Source, W: Write>(
    alloc: Global,
    word: &'w str,
    reader: &mut R,
    writer: &mut W,
) -> Result<(), TaskFault<'w>>
    ensures ends { Ends (AreMatched word.now (R.remaining reader.old) (R.remaining reader.new))
        (ComesOfMatching word.now (R.may_fail reader.old)) (W.contents writer.old) (W.contents writer.new) result }
    ensures early { IfOfWord (reader.new ≡ reader.old) result }
{
    let Some(list) = RequirementsRef::new(word) else {
        return Err(TaskFault::NotRequirement(word));
    };
    let input = read_standard(alloc, reader)?;
    write_answers(
        alloc,
        &Listed { list: &list },
        b'\n',
        input.as_slice(),
        writer,
    )
}

// Whole lines that are versions which a list matches, and nothing of others.
#[derive(Clone, Copy)]
struct Listed<'c> {
    list: &'c RequirementsRef<'c>,
}

impl LineCommand for Listed<'_> {
    ghost use Rattle.version_commands.specs.Output.{matched_line};

    ghost line_output = { λ listed. matched_line listed.list.now };

    #[inline(always)]
    fn answer(&self, line: &[u8]) -> Answer {
        // Its first bytes decide most lines without a scan.
        whole_if(self.list.keeps(line))
    }
}
