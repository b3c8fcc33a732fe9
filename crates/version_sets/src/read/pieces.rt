//! The pieces of a text: commas, bars, and the words between these and blanks.

ghost use Rattle.std.specs.Prelude.{◌≡◌, ◌∷◌, ◌<◌, ◌≤◌, ◌+◌, ◌^◌, [], IfNone, IfSome, false, length, ℕ};
ghost use Rattle.version_order.specs.texts.Front.{begins};
ghost use Rattle.version_sets.specs.Pieces.{is_blank, is_word_byte, piece_length, pieces, plain_piece};

use version_order::{ByteSet, after_byte, split_set};

// Spaces and tabs.
struct Blank {}

impl ByteSet for Blank {
    ghost has = { is_blank };

    #[inline(always)]
    fn has(byte: u8) -> bool {
        byte == b' ' || byte == b'\t'
    }
}

// The bytes of words: no blanks, commas and bars.
struct InWord {}

impl ByteSet for InWord {
    ghost has = { is_word_byte };

    #[inline(always)]
    fn has(byte: u8) -> bool {
        !matches!(byte, b' ' | b'\t' | b',' | b'|')
    }
}

/// A piece of a text.
#[derive(Clone, Copy)]
pub(crate) enum Piece<'t> {
    /// `,`
    Comma,
    /// `||`
    Bars,
    /// `|` alone.
    Bar,
    /// A run of other bytes than blanks, commas and bars.
    Word(&'t [u8]),
}

/// The pieces that are left of a text, and where it goes on.
#[derive(Clone, Copy)]
pub(crate) struct Pieces<'t> {
    pub left: &'t [u8],
    pub place: usize,
}

impl<'t> Pieces<'t> {
    // Returns the next piece and where it begins, or None if none is left.
    pub fn next(&mut self) -> Option<(usize, Piece<'t>)>
        requires { self.old.place + length self.old.left.now < 2 ^ 64 }
        ensures some { IfSome result (λ next. pieces self.old.place self.old.left.now
            ≡ (next.0, plain_piece next.1) ∷ pieces self.new.place self.new.left.now) }
        ensures none { IfNone result (pieces self.old.place self.old.left.now ≡ []) }

        // A piece lies between what was passed and what is left, and where the text ends stays the same.
        ensures behind { IfSome result (λ next. self.old.place ≤ next.0) }
        ensures piece { IfSome result (λ next. next.0 + piece_length (plain_piece next.1) ≡ self.new.place) }
        ensures end { self.new.place + length self.new.left.now
            ≡ self.old.place + length self.old.left.now }
        ensures nearer { IfSome result (λ _. length self.new.left.now < length self.old.left.now) }
    {
        self.skip_blanks();
        let place = self.place;
        let (piece, rest) = first_piece(self.left)?;
        self.place += self.left.len() - rest.len();
        self.left = rest;
        Some((place, piece))
    }

    // Goes on behind the blanks with which the text begins.
    fn skip_blanks(&mut self)
        requires { self.old.place + length self.old.left.now < 2 ^ 64 }
        ensures same { pieces self.new.place self.new.left.now ≡ pieces self.old.place self.old.left.now }
        ensures end { self.new.place + length self.new.left.now
            ≡ self.old.place + length self.old.left.now }
        ensures other { begins is_blank self.new.left.now ≡ false }
        ensures nearer { length self.new.left.now ≤ length self.old.left.now }
    {
        let (blanks, rest) = split_set::<Blank>(self.left);
        self.place += blanks.len();
        self.left = rest;
    }
}

// Returns the piece with which a text begins that begins with no blank, and the rest, or None if it is empty.
fn first_piece(text: &[u8]) -> Option<(Piece<'_>, &[u8])>
    requires { begins is_blank text.now ≡ false }
    ensures some { IfSome result (λ first. (place : ℕ) → pieces place text.now
        ≡ (place, plain_piece first.0) ∷ pieces (place + piece_length (plain_piece first.0)) first.1.now) }
    ensures none { IfNone result (text.now ≡ []) }
    ensures whole { IfSome result (λ first.
        piece_length (plain_piece first.0) + length first.1.now ≡ length text.now) }
    ensures shorter { IfSome result (λ first. length first.1.now < length text.now) }
{
    let (first, rest) = text.split_first()?;
    if *first == b',' {
        return Some((Piece::Comma, rest));
    }
    if *first == b'|' {
        return match after_byte(b'|', rest) {
            Some(behind) => Some((Piece::Bars, behind)),
            None => Some((Piece::Bar, rest)),
        };
    }
    let (word, behind) = split_set::<InWord>(text);
    Some((Piece::Word(word), behind))
}
