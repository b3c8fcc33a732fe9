//! The schemes as a message lists them.

use std::fmt;
use version_schemes::Scheme;

/// The names of the schemes, each with what else people call it: `mixed, deb (debian, ubuntu), ..`.
#[derive(Clone, Copy)]
pub struct SchemeNames;

impl fmt::Display for SchemeNames {
    ghost use Rattle.std.specs.Prelude.{Some};
    ghost use Rattle.version_answers.specs.Message.{scheme_names};

    ghost output = { λ _. Some scheme_names };

    fn fmt<W: fmt::Write>(&self, f: &mut fmt::Formatter<W>) -> fmt::Result {
        for scheme in Scheme::all() {
            let names = NamesOf { scheme };
            write!(f, "{names}")?;
        }
        Ok(())
    }
}

// The names of a scheme in the list: behind a comma where it isn't the first, and what else people call it in
// parentheses.
#[derive(Clone, Copy)]
struct NamesOf {
    scheme: Scheme,
}

impl fmt::Display for NamesOf {
    ghost use Rattle.std.specs.Prelude.{Some};
    ghost use Rattle.version_answers.specs.Message.{names_of};

    ghost output = { λ names. Some (names_of names.scheme) };

    fn fmt<W: fmt::Write>(&self, f: &mut fmt::Formatter<W>) -> fmt::Result {
        let before = if self.scheme.number() == 1 { "" } else { ", " };
        let (name, aliases) = (self.scheme.name(), self.scheme.aliases());
        match aliases {
            [] => write!(f, "{before}{name}"),
            [alias, others @ ..] => {
                let others = MoreNames { names: others };
                write!(f, "{before}{name} ({alias}{others})")
            }
        }
    }
}

// Names behind another, each with a comma before it.
#[derive(Clone, Copy)]
struct MoreNames {
    names: &'static [&'static str],
}

impl fmt::Display for MoreNames {
    ghost use Rattle.std.specs.Prelude.{Some, map};
    ghost use Rattle.version_answers.specs.Message.{more_names};

    ghost output = { λ more. Some (more_names (map (λ name. name.now) more.names.now)) };

    fn fmt<W: fmt::Write>(&self, f: &mut fmt::Formatter<W>) -> fmt::Result {
        for name in self.names {
            write!(f, ", {name}")?;
        }
        Ok(())
    }
}
