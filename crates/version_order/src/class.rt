//! The classes of the bytes that versions are made of, all of them ASCII, and where runs of a class end.

ghost use Rattle.std.specs.Prelude.{◌≡◌, ◌+◌, ◌≤◌, ◌∷◌, ℕ, IfNone, IfSome, List, drop, false, length, true};
ghost use Rattle.std.specs.List.{prefix_len, take_while};
ghost use Rattle.version_order.specs.texts.{Bytes.HasDigits, Class.byte_rank, Class.contains, Class.first_rank, Front.begins, Grammar.is_sep};

/// A class of bytes.
#[derive(Clone, Copy)]
pub enum Class {
    Digit,
    Letter,
    /// Letters and digits.
    Alphanumeric,
    /// Letters, digits and hyphens.
    Identifier,
    /// Letters, digits, hyphens and dots.
    Metadata,
    /// Dots and signs.
    Mark,
    /// All but dots.
    NotDot,
    /// All but signs.
    NotSign,
}

/// The ranks of a letter, a hyphen, a dot, a plus and a colon, and the rank where a text ends.
const LETTER: u8 = 1;

pub const HYPHEN: u8 = 2;

pub const DOT: u8 = 3;

pub const PLUS: u8 = 4;

pub const COLON: u8 = 5;

pub const END: u8 = 8;

// The rank of each byte: of a digit, a letter, a hyphen, a dot, a plus, a colon, another sign, and any other byte.
static RANKS: [u8; 256] = [
    7, 7, 7, 7, 7, 7, 7, 7, 7, 7, 7, 7, 7, 7, 7, 7, 7, 7, 7, 7, 7, 7, 7, 7, 7, 7, 7, 7, 7, 7, 7, 7,
    7, 7, 7, 7, 7, 7, 7, 7, 7, 7, 7, 4, 7, 2, 3, 7, 0, 0, 0, 0, 0, 0, 0, 0, 0, 0, 5, 7, 7, 7, 7, 7,
    7, 1, 1, 1, 1, 1, 1, 1, 1, 1, 1, 1, 1, 1, 1, 1, 1, 1, 1, 1, 1, 1, 1, 1, 1, 1, 1, 7, 7, 7, 7, 6,
    7, 1, 1, 1, 1, 1, 1, 1, 1, 1, 1, 1, 1, 1, 1, 1, 1, 1, 1, 1, 1, 1, 1, 1, 1, 1, 1, 7, 7, 7, 6, 7,
    7, 7, 7, 7, 7, 7, 7, 7, 7, 7, 7, 7, 7, 7, 7, 7, 7, 7, 7, 7, 7, 7, 7, 7, 7, 7, 7, 7, 7, 7, 7, 7,
    7, 7, 7, 7, 7, 7, 7, 7, 7, 7, 7, 7, 7, 7, 7, 7, 7, 7, 7, 7, 7, 7, 7, 7, 7, 7, 7, 7, 7, 7, 7, 7,
    7, 7, 7, 7, 7, 7, 7, 7, 7, 7, 7, 7, 7, 7, 7, 7, 7, 7, 7, 7, 7, 7, 7, 7, 7, 7, 7, 7, 7, 7, 7, 7,
    7, 7, 7, 7, 7, 7, 7, 7, 7, 7, 7, 7, 7, 7, 7, 7, 7, 7, 7, 7, 7, 7, 7, 7, 7, 7, 7, 7, 7, 7, 7, 7,
];

// Returns the rank of a byte, which the classes go by: a look-up is faster than comparisons.
#[inline(always)]
fn rank(byte: u8) -> u8
    ensures { result ≡ byte_rank byte }
{
    RANKS[usize::from(byte)]
}

impl Class {
    /// Returns whether a byte is of the class.
    #[inline(always)]
    pub fn contains(self, byte: u8) -> bool
        ensures { result ≡ contains self byte }
    {
        match self {
            Class::Digit => byte.is_ascii_digit(),
            Class::Letter => byte.is_ascii_alphabetic(),
            Class::Alphanumeric => rank(byte) < 2,
            Class::Identifier => rank(byte) < 3,
            Class::Metadata => rank(byte) < 4,
            Class::Mark => matches!(rank(byte), 2..=6),
            Class::NotDot => byte != b'.',
            Class::NotSign => !is_sign(byte),
        }
    }

    /// Returns whether bytes of a rank are of the class, which is of whole ranks and has the digits. `END` is not.
    #[inline(always)]
    pub fn has_rank(self, rank: u8) -> bool
        requires { HasDigits (contains self) }
        ensures { (text : List ℕ) → first_rank text ≡ rank → begins (contains self) text ≡ result }
    {
        match self {
            Class::Digit => rank < LETTER,
            Class::Letter => rank == LETTER,
            Class::Alphanumeric => rank <= LETTER,
            Class::Identifier => rank <= HYPHEN,
            Class::Metadata => rank <= DOT,
            Class::Mark => matches!(rank, 2..=6),
            Class::NotDot => rank != DOT && rank != END,
            Class::NotSign => matches!(rank, 0 | 1 | 3 | 7),
        }
    }
}

/// Returns whether a byte is a sign between the sections of a messy version.
#[inline(always)]
pub fn is_sign(byte: u8) -> bool
    ensures { result ≡ is_sep byte }
{
    matches!(byte, b':' | b'-' | b'+' | b'_' | b'~')
}

/// Returns the rank of the byte at a place, or that of the end of the text.
#[inline(always)]
pub fn rank_at(text: &[u8], place: usize) -> u8
    ensures { result ≡ first_rank (drop place text.now) }
{
    if place < text.len() {
        rank(text[place])
    } else {
        END
    }
}

/// Returns where the bytes of a class from a place on end.
#[inline(always)]
pub fn run_end(text: &[u8], start: usize, class: Class) -> usize
    requires { start ≤ length text.now }
    ensures end { result ≡ start + prefix_len (contains class) (drop start text.now) }
    ensures within { result ≤ length text.now }
{
    let mut end = start;
    while end < text.len() && class.contains(text[end]) {
        end += 1;
    }
    end
}

/// Returns how many bytes of a class a text begins with.
#[inline(always)]
pub fn run_length(text: &[u8], class: Class) -> usize
    ensures length { result ≡ prefix_len (contains class) text.now }
    ensures within { result ≤ length text.now }
{
    run_end(text, 0, class)
}

/// Returns the longest run of a class at the start of a text, which may be empty, and the rest.
#[inline(always)]
pub fn split_run(text: &[u8], class: Class) -> (&[u8], &[u8])
    ensures run { result.0.now ≡ take_while (contains class) text.now }
    ensures rest { result.1.now ≡ drop (prefix_len (contains class) text.now) text.now }
{
    // Not by `run_length`: with one function more, what writes a key is past what the compiler puts in one place.
    text.split_at(run_end(text, 0, class))
}

/// Returns whether a text begins with a byte of a class.
#[inline(always)]
pub fn begins_with(text: &[u8], class: Class) -> bool
    ensures { result ≡ begins (contains class) text.now }
{
    match text {
        [first, ..] => class.contains(*first),
        [] => false,
    }
}

/// Returns the byte of a class that a text begins with, and the rest, or None if it begins with no such byte.
#[inline(always)]
pub fn split_byte(text: &[u8], class: Class) -> Option<(u8, &[u8])>
    ensures some { IfSome result (λ p. (text.now ≡ p.0 ∷ p.1.now) × (contains class p.0 ≡ true)) }
    ensures none { IfNone result (begins (contains class) text.now ≡ false) }
{
    match text {
        [first, rest @ ..] if class.contains(*first) => Some((*first, rest)),
        _ => None,
    }
}
