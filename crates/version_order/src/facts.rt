//! What is fixed for a scheme.

ghost use Rattle.std.specs.Prelude.{◌≡◌};
ghost use Rattle.version_order.specs.keys.Sinks.{saturated};

/// Which comparisons the sets of a scheme have beside `=`, `==`, `!=`, `<`, `<=`, `>` and `>=`.
#[derive(Clone, Copy, Debug, PartialEq, Eq)]
pub enum Operators {
    /// No others.
    Plain,
    /// `<<` and `>>`, which are `<` and `>`.
    Doubled,
    /// `~`, `~=`, `~>`, `^`, and `.*` behind a version: its versions have parts, and keys begin with these.
    Parts,
}

/// What is fixed for a scheme: all that is said of it and no text decides.
#[derive(Clone, Copy)]
pub struct Facts {
    /// The number with which the form of a set begins.
    pub number: u8,
    /// Its name, as package-url has it.
    pub name: &'static str,
    /// What else people call it, such as `debian`.
    pub aliases: &'static [&'static str],
    /// Which comparisons its sets have.
    pub operators: Operators,
    /// How many bytes of a key each byte of a text has at most.
    pub per_byte: usize,
    /// How many bytes a key has beside these, at most.
    pub beside: usize,
    /// The bytes that stand between the parts of a version, and begin none.
    pub marks: &'static [u8],
}

impl Facts {
    ghost use Rattle.version_order.specs.Facts.{key_room, plain_facts};

    /// Returns how many bytes the key of a text of a length has at most; an end of a range has one more.
    #[inline(always)]
    pub fn key_room(&self, text_len: usize) -> usize
        ensures { result ≡ saturated (key_room (plain_facts self.now) text_len) }
    {
        text_len
            .saturating_mul(self.per_byte)
            .saturating_add(self.beside)
    }
}
