//! What `{:?}` and `{:#?}` write of a messy version: the text that a derive would write, but without recursion.

use crate::mess::Mess;
use std::fmt::{self, Alignment, Debug, Formatter, ToDebug, Write};

impl fmt::Debug for Mess {
    fn fmt<W: fmt::Write>(&self, f: &mut fmt::Formatter<W>) -> fmt::Result {
        if f.alternate() {
            return write_pretty(self, f);
        }
        show_front(self, f)?;
        let mut current = self;
        while let Some((sign, section)) = &current.next {
            write!(f, "Some(({sign:?}, ")?;
            show_front(section, f)?;
            current = section;
        }
        f.write_str("None }")?;
        let mut current = self;
        while let Some((_, section)) = &current.next {
            f.write_str(")) }")?;
            current = section;
        }
        Ok(())
    }
}

// Writes a section as `Debug` does, up to the section after it.
fn show_front<W: fmt::Write>(section: &Mess, f: &mut fmt::Formatter<W>) -> fmt::Result {
    f.write_str("Mess { chunks: ")?;
    fmt::Debug::fmt(&section.chunks, f)?;
    f.write_str(", next: ")
}

// Writes a version over several lines, each indented by four blanks more than what encloses it. Each section is
// enclosed by the one before it, so the output grows with the square of the number of sections.
fn write_pretty<W: Write>(mess: &Mess, f: &mut Formatter<W>) -> fmt::Result {
    let mut lines = Lines {
        f,
        depth: 0,
        at_start: false,
    };
    lines.write_front(mess)?;
    let mut current = mess;
    while let Some((sign, section)) = &current.next {
        lines.open("Some(")?;
        lines.open("(")?;
        lines.write_value(sign)?;
        lines.write_str(",\n")?;
        lines.write_front(section)?;
        current = section;
    }
    lines.write_str("None")?;
    lines.close("}")?;
    let mut current = mess;
    while let Some((_, section)) = &current.next {
        lines.close(")")?;
        lines.close(")")?;
        lines.close("}")?;
        current = section;
    }
    Ok(())
}

// A writer of indented lines to a formatter.
#[derive(Drop)]
struct Lines<'a, W> {
    f: &'a mut Formatter<W>,
    // The indentation in steps of four blanks.
    depth: usize,
    at_start: bool,
}

impl<'a, W: Write> Lines<'a, W> {
    // Writes a section up to the section after it.
    fn write_front(&mut self, section: &Mess) -> fmt::Result {
        self.open("Mess {")?;
        self.write_str("chunks: ")?;
        self.write_value(&section.chunks)?;
        self.write_str(",\nnext: ")
    }

    // Writes the opening of a value, and indents what follows by one step more.
    fn open(&mut self, opener: &str) -> fmt::Result {
        self.write_str(opener)?;
        self.write_str("\n")?;
        self.depth = self.depth.saturating_add(1);
        Ok(())
    }

    // Ends the last field of a value, and closes the value.
    fn close(&mut self, closer: &str) -> fmt::Result {
        self.write_str(",\n")?;
        self.depth = self.depth.saturating_sub(1);
        self.write_str(closer)
    }

    // Writes a value with the options of the formatter.
    fn write_value<T: Debug>(&mut self, value: &T) -> fmt::Result {
        let f = &*self.f;
        let mut shown = value
            .debug()
            .alternate()
            .fill(f.fill())
            .width(f.width().unwrap_or(0));
        if f.sign_plus() {
            shown = shown.plus();
        }
        if f.sign_aware_zero_pad() {
            shown = shown.zero();
        }
        shown = match f.align() {
            Some(Alignment::Left) => shown.left(),
            Some(Alignment::Center) => shown.center(),
            Some(Alignment::Right) => shown.right(),
            None => shown,
        };
        write!(self, "{shown}")
    }
}

impl<'a, W: Write> Write for Lines<'a, W> {
    fn write_str(&mut self, s: &str) -> fmt::Result {
        for line in s.split_inclusive('\n') {
            if self.at_start {
                self.f.write_repeated("    ", self.depth)?;
            }
            self.f.write_str(line)?;
            self.at_start = line.ends_with('\n');
        }
        Ok(())
    }
}
