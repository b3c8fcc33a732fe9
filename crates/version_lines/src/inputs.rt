//! The lines of inputs that were read in turn.
ghost use Rattle.std.specs.Prelude.{◌≡◌, ◌<◌, ◌+◌, ◌^◌, [], length, map, MatchOption};

use crate::lines::{LineEnd, split_line};

/// What was read of an input.
#[derive(Debug, Drop)]
pub struct InputText<'w> {
    /// The name of its file, if it has one.
    pub file: Option<&'w str>,
    pub text: Vec<u8>,
}

/// A line of an input.
#[derive(Clone, Copy, Debug)]
pub struct Line<'a, 'w> {
    /// What stands in it, without the byte that ends it.
    pub text: &'a [u8],
    /// The name of its file, if it has one.
    pub file: Option<&'w str>,
    /// Its number there, counted from 1.
    pub number: usize,
}

/// The lines of inputs that were read in turn, one after another. None reaches from one input into the next.
#[derive(Clone, Copy, Debug)]
pub struct Lines<'a, 'w> {
    end: LineEnd,
    file: Option<&'w str>,
    // How many lines of an input came, and what is left of it.
    count: usize,
    rest: &'a [u8],
    // The inputs behind it.
    others: &'a [InputText<'w>],
    ghost fits: { count + length rest.now < 2 ^ 64 },
}

impl<'a, 'w> Lines<'a, 'w> {
    ghost use Rattle.std.specs.Option.{option_map};
    ghost use Rattle.version_lines.specs.{Inputs.lines_left, Inputs.lines_of_inputs, Inputs.numbered, Inputs.plain_input, Lines.lines_of};

    /// Returns the lines of a text, which a file of this name holds, if it has one.
    pub fn of(end: LineEnd, file: Option<&'w str>, text: &'a [u8]) -> Lines<'a, 'w>
        ensures { lines_left result ≡ numbered (option_map (λ name. name.now) file.entry) 0 (lines_of end text.now) }
    {
        Lines {
            end,
            file,
            count: 0,
            rest: text,
            others: &[],
        }
    }

    /// Returns the lines of inputs, in their order.
    pub fn of_inputs(end: LineEnd, inputs: &'a [InputText<'w>]) -> Lines<'a, 'w>
        ensures { lines_left result ≡ lines_of_inputs end (map plain_input inputs.now) }
    {
        Lines {
            end,
            file: None,
            count: 0,
            rest: &[],
            others: inputs,
        }
    }

    /// Returns how many bytes are left of all inputs.
    pub fn bytes(&self) -> usize {
        let mut bytes = self.rest.len();
        for input in self.others {
            bytes = bytes.saturating_add(input.text.len());
        }
        bytes
    }

    // Returns the lines from the next input that has one, or None if none has. By value, so that what goes over lines can
    // hold them in registers.
    #[cold]
    #[inline(never)]
    fn behind(self) -> Option<Lines<'a, 'w>>
        ensures { MatchOption result (lines_left self.entry ≡ [])
            (λ lines. (lines_left lines ≡ lines_left self.entry) × (0 < length lines.rest.now)) }
    {
        if !self.rest.is_empty() {
            return Some(self);
        }
        let mut others = self.others;
        while let [input, further @ ..] = others {
            others = further;
            if !input.text.is_empty() {
                return Some(Lines {
                    end: self.end,
                    file: input.file,
                    count: 0,
                    rest: input.text.as_slice(),
                    others,
                });
            }
        }
        None
    }
}

impl<'a, 'w> Iterator for Lines<'a, 'w> {
    ghost use Rattle.std.specs.Iterator.{YieldsFirstBy, item_count};
    ghost use Rattle.version_lines.specs.Inputs.{lines_left, plain_line};

    type Item = Line<'a, 'w>;

    ghost next_gives = { YieldsFirstBy plain_line lines_left };

    ghost remaining = { item_count lines_left };

    #[inline(always)]
    fn next(&mut self) -> Option<Line<'a, 'w>> {
        if self.rest.is_empty() {
            *self = self.behind()?;
        }
        let (text, rest) = split_line(self.end, self.rest);
        let count = self.count + 1;
        *self = Lines {
            end: self.end,
            file: self.file,
            count,
            rest,
            others: self.others,
        };
        Some(Line {
            text,
            file: self.file,
            number: count,
        })
    }
}
