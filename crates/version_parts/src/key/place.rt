//! Places in a piece: what the remaining text is read as, and the step to the next byte.

ghost use Rattle.std.specs.Prelude.{◌≡◌, ◌++◌, [], List, ℕ, Some, None, IfNone, IfSome};
ghost use Rattle.version_order.specs.{keys.Codes.text_byte, texts.Front.starts_with_digit};
ghost use Rattle.version_parts.specs.Pieces.{after_number_bytes, place_bytes, run_bytes, step_bytes};

use crate::key::PartText;
use version_order::Class;

// What is read after a number.
#[derive(Clone, Copy)]
pub(crate) enum AfterNumber {
    // The suffix of a part.
    Suffix,
    // A text.
    Text,
    // Nothing: what follows does not count.
    Nothing,
}

// The place of a stream: what the remaining text is read as.
#[derive(Clone, Copy)]
pub(crate) enum Place {
    // A part.
    Part,
    // A text to be split before its first digit.
    Split,
    // The number of a split and the text after it, if there is one.
    Numbered,
    // A number: the length of its digits, then the digits.
    Number(AfterNumber),
    // A number, from the rest of that length on.
    Length(usize, AfterNumber),
    // A number, from a digit on.
    Digit(AfterNumber),
    // What is read after a number.
    Rest(AfterNumber),
}

// The next byte, a byte that must follow it, if any, and the place of the stream after them.
#[derive(Clone, Copy)]
pub(crate) struct Step {
    pub(crate) byte: u8,
    pub(crate) then: Option<u8>,
    pub(crate) place: Place,
}

impl Step {
    // A step of one byte.
    fn to(byte: u8, place: Place) -> Step
        ensures { result ≡ record { byte = byte; then = None; place = place } }
    {
        Step {
            byte,
            then: None,
            place,
        }
    }

    // A byte of a text: 0 and 1 are each written as two bytes.
    fn text_byte(byte: u8, place: Place) -> Step
        ensures { (rest : List ℕ)
            → step_bytes result rest ≡ text_byte (Some byte) ++ place_bytes place rest }
    {
        if byte > 1 {
            return Step::to(byte, place);
        }
        Step {
            byte: 1,
            then: Some(byte + 1),
            place,
        }
    }
}

impl Place {
    // The step to the next byte of a text at this place, if there is one.
    #[tactic(auto, unfolding(crate::specs::Pieces::place_bytes, crate::specs::Pieces::after_number_bytes))]
    pub(crate) fn step(self, text: &mut PartText<'_>) -> Option<Step>
        ensures some { IfSome result
            (λ step. place_bytes self text.old ≡ step_bytes step text.new) }
        ensures none { IfNone result ((place_bytes self text.old ≡ [])
            × (place_bytes self text.new ≡ [])) }
    {
        match self {
            Place::Part => Some(part_step(text)),
            Place::Split => Some(split_step(text)),
            Place::Numbered => Some(numbered_step(text)),
            Place::Number(after) => Some(number_step(after, text)),
            Place::Length(left, after) => Some(length_step(left, after, text)),
            Place::Digit(after) => {
                let digit = text.next()?;
                Some(Step::to(digit, within_run(after, text)))
            }
            Place::Rest(after) => rest_step(after, text),
        }
    }
}

// Whether a text begins with a digit.
fn starts_with_digit(text: &PartText<'_>) -> bool
    ensures { result ≡ starts_with_digit text.now }
{
    match text.first() {
        Some(byte) => byte.is_ascii_digit(),
        None => false,
    }
}

#[tactic(auto, using(crate::proofs::lemmas::Pieces::part_steps))]
fn part_step(text: &PartText<'_>) -> Step
    ensures { place_bytes Place.Part text.now ≡ step_bytes result text.now }
{
    if starts_with_digit(text) {
        Step::to(3, Place::Number(AfterNumber::Suffix))
    } else {
        Step::to(1, Place::Split)
    }
}

// Takes the bytes at the start of a text that stand unchanged in a key, and returns them with the place of the stream
// after them.
#[tactic(auto, using(crate::proofs::lemmas::Pieces::runs_taken))]
pub(crate) fn run_step<'a>(place: Place, text: &mut PartText<'a>) -> (&'a [u8], Place)
    ensures { place_bytes place text.old ≡ result.0.now ++ place_bytes result.1 text.new }
{
    match place {
        Place::Digit(after) => {
            let digits = text.take_run(Class::Digit);
            if digits.is_empty() {
                return (digits, place);
            }
            (digits, within_run(after, text))
        }
        Place::Split => (text.take_run(Class::Letter), place),
        Place::Rest(AfterNumber::Text) => (text.take_run(Class::Identifier), place),
        _ => (&[], place),
    }
}

#[tactic(auto, using(crate::proofs::lemmas::Pieces::split_steps))]
fn split_step(text: &mut PartText<'_>) -> Step
    ensures { place_bytes Place.Split text.old ≡ step_bytes result text.new }
{
    if starts_with_digit(text) {
        return Step::to(0, Place::Numbered);
    }
    match text.next() {
        Some(byte) => Step::text_byte(byte, Place::Split),
        None => Step::to(0, Place::Numbered),
    }
}

#[tactic(auto, using(crate::proofs::lemmas::Pieces::numbered_steps))]
fn numbered_step(text: &PartText<'_>) -> Step
    ensures { place_bytes Place.Numbered text.now ≡ step_bytes result text.now }
{
    if starts_with_digit(text) {
        Step::to(1, Place::Number(AfterNumber::Text))
    } else {
        Step::to(0, Place::Rest(AfterNumber::Nothing))
    }
}

// Leading zeros are skipped, and the digits are counted once.
#[tactic(auto, using(crate::proofs::lemmas::Pieces::number_counted))]
fn number_step(after: AfterNumber, text: &mut PartText<'_>) -> Step
    ensures { place_bytes (Place.Number after) text.old ≡ step_bytes result text.new }
{
    text.skip_zeros();
    length_step(text.digit_count(), after, text)
}

#[tactic(auto, using(crate::proofs::lemmas::Pieces::length_steps))]
fn length_step(left: usize, after: AfterNumber, text: &PartText<'_>) -> Step
    ensures { place_bytes (Place.Length left after) text.now ≡ step_bytes result text.now }
{
    if left < 255 {
        return Step::to(left as u8, within_run(after, text));
    }
    Step::to(255, Place::Length(left - 255, after))
}

// The place of a stream within a run of digits: at the next digit, or after the run.
#[tactic(auto, using(crate::proofs::lemmas::Pieces::run_steps))]
fn within_run(after: AfterNumber, text: &PartText<'_>) -> Place
    ensures { place_bytes result text.now ≡ run_bytes after text.now }
{
    if starts_with_digit(text) {
        Place::Digit(after)
    } else {
        Place::Rest(after)
    }
}

#[tactic(auto, unfolding(crate::specs::Pieces::after_number_bytes))]
fn rest_step(after: AfterNumber, text: &mut PartText<'_>) -> Option<Step>
    ensures some { IfSome result
        (λ step. after_number_bytes after text.old ≡ step_bytes step text.new) }
    ensures none { IfNone result ((after_number_bytes after text.old ≡ [])
        × (after_number_bytes after text.new ≡ [])) }
{
    match after {
        AfterNumber::Suffix => Some(suffix_step(text)),
        AfterNumber::Text => Some(text_step(text)),
        AfterNumber::Nothing => None,
    }
}

#[tactic(auto, using(crate::proofs::lemmas::Pieces::suffix_steps))]
fn suffix_step(text: &PartText<'_>) -> Step
    ensures { after_number_bytes AfterNumber.Suffix text.now ≡ step_bytes result text.now }
{
    match text.first() {
        Some(_) => Step::to(1, Place::Split),
        None => Step::to(2, Place::Rest(AfterNumber::Nothing)),
    }
}

#[tactic(auto, using(crate::proofs::lemmas::Pieces::text_steps))]
fn text_step(text: &mut PartText<'_>) -> Step
    ensures { after_number_bytes AfterNumber.Text text.old ≡ step_bytes result text.new }
{
    match text.next() {
        Some(byte) => Step::text_byte(byte, Place::Rest(AfterNumber::Text)),
        None => Step::to(0, Place::Rest(AfterNumber::Nothing)),
    }
}
