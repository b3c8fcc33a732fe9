//! Which texts are RubyGems' versions, `Gem::Version.correct?` of RubyGems 3.3, and how far the others could become one.

ghost use Rattle.std.specs.Prelude.{◌≡◌, false, true, MatchResult};
ghost use Rattle.version_order.specs.{Viable.IsLongestViable, Viable.Stops, texts.Bytes.is_identifier_byte};
ghost use Rattle.scheme_gem.specs.Texts.{are_pieces, is_blank, is_gem, is_hyphenated, is_plain, is_version, trimmed};

use version_order::{ByteSet, Class, Stop, after_byte, split_run, split_set};

// Ruby's blanks, which may stand around a version.
struct Blank {}

impl ByteSet for Blank {
    ghost has = { is_blank };

    #[inline(always)]
    fn has(byte: u8) -> bool {
        matches!(byte, 9..=13 | b' ')
    }
}

/// Returns the version that a text is, without the blanks around it, or else the length of the longest beginning that some
/// continuation makes a version. Takes time linear in the text.
#[inline(always)]
pub fn read(text: &[u8]) -> Result<&[u8], usize>
    ensures { MatchResult result
        (λ version. (is_gem text.now ≡ true) × (version.now ≡ trimmed text.now))
        (λ place. (is_gem text.now ≡ false) × IsLongestViable is_gem text.now place) }
{
    let (_, version) = split_set::<Blank>(text);
    let stop = walk_version(version);
    if !stop.is_whole {
        return Err(text.len() - stop.rest.len());
    }
    let (_, rest) = split_set::<Blank>(stop.rest);
    if rest.is_empty() {
        Ok(&version[..version.len() - stop.rest.len()])
    } else {
        Err(text.len() - rest.len())
    }
}

// Walks over a version without blanks around it. Its first piece is digits.
fn walk_version(text: &[u8]) -> Stop<'_>
    ensures { Stops is_version text.now result.rest.now result.is_whole }
{
    let (digits, rest) = split_run(text, Class::Digit);
    if digits.is_empty() {
        return Stop {
            rest,
            is_whole: false,
        };
    }
    match after_byte(b'.', rest) {
        Some(behind) => walk_pieces(behind),
        None => walk_tail(rest),
    }
}

// Walks over what follows the first dot.
fn walk_pieces(text: &[u8]) -> Stop<'_>
    ensures { Stops is_plain text.now result.rest.now result.is_whole }
{
    let mut left = text;
    'pieces: loop {
        let (piece, rest) = split_run(left, Class::Alphanumeric);
        if piece.is_empty() {
            return Stop {
                rest,
                is_whole: false,
            };
        }
        match after_byte(b'.', rest) {
            Some(behind) => left = behind,
            None => return walk_tail(rest),
        }
    }
}

// Walks over what may follow a piece that no dot follows: a hyphen and further pieces, or nothing.
#[inline(always)]
fn walk_tail(text: &[u8]) -> Stop<'_>
    ensures { Stops is_hyphenated text.now result.rest.now result.is_whole }
{
    match after_byte(b'-', text) {
        Some(behind) => walk_behind_hyphen(behind),
        None => Stop {
            rest: text,
            is_whole: true,
        },
    }
}

// Walks over what follows the first hyphen.
fn walk_behind_hyphen(text: &[u8]) -> Stop<'_>
    ensures { Stops (are_pieces is_identifier_byte) text.now result.rest.now result.is_whole }
{
    let mut left = text;
    'pieces: loop {
        let (piece, rest) = split_run(left, Class::Identifier);
        if piece.is_empty() {
            return Stop {
                rest,
                is_whole: false,
            };
        }
        match after_byte(b'.', rest) {
            Some(behind) => left = behind,
            None => {
                return Stop {
                    rest,
                    is_whole: true,
                };
            }
        }
    }
}
