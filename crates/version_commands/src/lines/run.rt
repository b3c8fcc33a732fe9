//! A run over the lines of an input.
ghost use Rattle.std.specs.Prelude.{◌≡◌, ◌<◌, ◌+◌, [], drop, false, length, map, take, IfOk, IsTrue};
ghost use Rattle.version_commands.specs.Run.{head_lines};
ghost use Rattle.version_lines.specs.Inputs.{lines_left, plain_line};

use std::alloc::{AllocError, Global};
use version_lines::{Line, Lines};
use version_runs::{Files, LineOptions, Stage};

/// The lines of a run: those that stay on top, and what follows them.
#[derive(Clone, Copy)]
pub struct Input<'a, 'w> {
    pub head: &'a [Line<'a, 'w>],
    pub body: Lines<'a, 'w>,
}

impl Input<'_, '_> {
    /// Whether it has no line.
    pub fn is_empty(&self) -> bool
        ensures none { IsTrue result → (head_lines self.now ≡ []) × (lines_left self.now.body ≡ []) }
        ensures some { result ≡ false → 0 < length (head_lines self.now) + length (lines_left self.now.body) }
    {
        let mut body = self.body;
        self.head.is_empty() && body.next().is_none()
    }
}

/// Returns the first lines, so many if there are, and what follows them.
pub fn split_lines<'a, 'w>(
    alloc: Global,
    count: usize,
    lines: Lines<'a, 'w>,
) -> Result<(Vec<Line<'a, 'w>>, Lines<'a, 'w>), AllocError>
    ensures first { IfOk result (λ parts. map plain_line parts.0.items ≡ take count (lines_left lines.entry)) }
    ensures left { IfOk result (λ parts. lines_left parts.1 ≡ drop count (lines_left lines.entry)) }
{
    let (mut first, mut left) = (Vec::new(alloc), lines);
    while first.len() < count {
        let Some(line) = left.next() else {
            return Ok((first, left));
        };
        first.push(line)?;
    }
    Ok((first, left))
}

/// What is asked of the lines of an input, by columns of numbers alone, and which versions are kept.
#[derive(Drop)]
pub struct LineRun<'r, 'w, C> {
    pub alloc: Global,
    pub options: LineOptions<'w>,
    pub chooser: &'r C,
    pub input: Input<'r, 'w>,
}

impl<C> LineRun<'_, '_, C> {
    /// Tells how far the run is, if that is asked for.
    pub fn tell<F: Files>(&self, files: &F, stage: Stage) {
        tell(&self.options, files, stage);
    }
}

/// Tells how far a run is, if that is asked for.
pub fn tell<F: Files>(options: &LineOptions<'_>, files: &F, stage: Stage) {
    if options.progress {
        files.tell(stage);
    }
}
