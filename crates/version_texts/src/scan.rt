//! One scan of a text, for the three kinds.

ghost use Rattle.std.specs.Prelude.{◌≡◌, ◌==◌, ◌+◌, ◌<◌, ◌≤◌, ◌&&◌, drop, false, if◌then◌else◌, is_some, length, true, IfNone, IfSome};
ghost use Rattle.std.specs.{Char.is_ascii_alphanumeric, List.list_all, List.prefix_len, List.take_while, Option.option_map};
ghost use Rattle.version_order.specs.texts.{Bytes.HasDigits, Class.contains, Class.first_rank, Cuts.pieces, Front.is_digits, Front.is_run};
ghost use Rattle.version_texts.specs.Scan.{behind_body, body_end, body_start, shape_at, shape_of, are_marked_runs, body_of, epoch_is_numeral, has_three_numbers, is_chunk, is_general, is_metadata_tail, is_not_plus, is_numeral, is_released, is_tail, kind_in, section_end, section_pieces};

pub(crate) mod numeral;
pub(crate) mod shape;

use crate::scan::numeral::is_numeral;
use crate::scan::shape::{Shape, TailKind};
use version_order::{COLON, Class, DOT, END, HYPHEN, PLUS, rank_at, run_end};
use version_rules::Kind;

/// Scans a text once, and returns its shape, or None if it is not a version of any kind. Takes time linear in the text.
/// Does not allocate.
#[inline(always)]
pub fn scan(text: &[u8]) -> Option<Shape>
    ensures { result ≡ shape_of text.now }
{
    let body = scan_body(text)?;
    finish(text, body)
}

// The body of a text: where it begins and ends, the rank of what follows, whether its pieces are chunks and its epoch,
// if it has one, is a numeral, and whether it is three runs of digits and has no epoch.
#[derive(Clone, Copy)]
struct Body {
    start: usize,
    end: usize,
    next: u8,
    chunks: bool,
    three_numbers: bool,
}

// Scans the epoch of a text, if it has one, and its body. Returns None if a run between the dots of the body is empty.
#[inline(always)]
fn scan_body(text: &[u8]) -> Option<Body>
    ensures start { IfSome result (λ body. body.start ≡ body_start text.now) }
    ensures end { IfSome result (λ body. body.end ≡ body_end text.now) }
    ensures within { IfSome result (λ body. body.end ≤ length text.now) }
    ensures next { IfSome result (λ body. body.next ≡ first_rank (drop body.end text.now)) }
    ensures chunks { IfSome result (λ body. body.chunks ≡ (epoch_is_numeral text.now
        && list_all (is_chunk is_ascii_alphanumeric) (pieces (body_of text.now)))) }
    ensures three_numbers { IfSome result (λ body. body.three_numbers ≡ has_three_numbers text.now) }
    ensures runs { is_some result
        ≡ list_all (is_run is_ascii_alphanumeric) (pieces (body_of text.now)) }
{
    let first = scan_section(text, 0)?;
    let epoch = (first.dots == 0) & first.digits & (first.next == COLON);
    if epoch {
        let section = scan_section(text, first.end + 1)?;
        return Some(Body {
            start: first.end + 1,
            end: section.end,
            next: section.next,
            chunks: first.chunks & section.chunks,
            three_numbers: false,
        });
    }
    Some(Body {
        start: 0,
        end: first.end,
        next: first.next,
        chunks: first.chunks,
        three_numbers: (first.dots == 2) & first.digits,
    })
}

// Returns the shape of a text, by its body.
#[inline(always)]
fn finish(text: &[u8], body: Body) -> Option<Shape>
    requires start { body.start ≡ body_start text.now }
    requires end { body.end ≡ body_end text.now }
    requires within { body.end ≤ length text.now }
    requires next { body.next ≡ first_rank (drop body.end text.now) }
    requires runs { list_all (is_run is_ascii_alphanumeric) (pieces (body_of text.now)) ≡ true }
    requires chunks { body.chunks ≡ (epoch_is_numeral text.now
        && list_all (is_chunk is_ascii_alphanumeric) (pieces (body_of text.now))) }
    requires three_numbers { body.three_numbers ≡ has_three_numbers text.now }
    ensures { result ≡ option_map (λ k. shape_at k text.now) (kind_in text.now) }
{
    if !body.chunks {
        return scan_messy(text, body.start, body.end);
    }
    match scan_tail(text, body.end, body.next) {
        Some(tail_end) => Some(spelled_shape(text, body, tail_end)),
        None => scan_messy(text, body.start, body.end),
    }
}

// Returns the shape of a text that is messy or no version.
#[inline(always)]
#[tactic(auto, using(crate::proofs::lemmas::scan::Scanned::ended, crate::proofs::lemmas::scan::Scanned::goes_on, crate::proofs::lemmas::scan::Scanned::no_kind))]
fn scan_messy(text: &[u8], body: usize, end: usize) -> Option<Shape>
    requires body { body ≡ body_start text.now }
    requires end { end ≡ body_end text.now }
    requires within { end ≤ length text.now }
    requires runs { list_all (is_run is_ascii_alphanumeric) (pieces (body_of text.now)) ≡ true }
    requires not_general { is_general text.now ≡ false }
    ensures { result ≡ option_map (λ k. shape_at k text.now) (kind_in text.now) }
{
    if !are_marked_runs(text, end) {
        return None;
    }
    let tail = if end == text.len() {
        TailKind::Nothing
    } else {
        TailKind::Sections
    };
    Some(Shape {
        kind: Kind::Complex,
        tail,
        body,
        end,
        tail_end: text.len(),
    })
}

// Returns the shape of a strict or general version.
#[inline(always)]
fn spelled_shape(text: &[u8], body: Body, tail_end: usize) -> Shape
    requires start { body.start ≡ body_start text.now }
    requires end { body.end ≡ body_end text.now }
    requires next { body.next ≡ first_rank (drop body.end text.now) }
    requires tail_end { tail_end ≡ body.end + prefix_len is_not_plus (behind_body text.now) }
    ensures { result ≡ shape_at (if body.three_numbers then Kind.Ideal else Kind.General) text.now }
{
    let (kind, released) = if body.three_numbers {
        (Kind::Ideal, TailKind::PreRelease)
    } else {
        (Kind::General, TailKind::Release)
    };
    let tail = if body.next == HYPHEN {
        released
    } else {
        TailKind::Nothing
    };
    Shape {
        kind,
        tail,
        body: body.start,
        end: body.end,
        tail_end,
    }
}

// Runs of letters and digits with dots between: where they end, the rank of what follows, how many the dots are,
// whether each run is all digits, and whether each is a chunk.
#[derive(Clone, Copy)]
struct Section {
    end: usize,
    next: u8,
    dots: usize,
    digits: bool,
    chunks: bool,
}

// Scans the letters, digits and dots from a place on. Returns None if a run between the dots is empty.
#[inline(always)]
fn scan_section(text: &[u8], start: usize) -> Option<Section>
    requires { start ≤ length text.now }
    ensures end { IfSome result (λ s. s.end ≡ section_end text.now start) }
    ensures next { IfSome result (λ s. s.next ≡ first_rank (drop s.end text.now)) }
    ensures dots { IfSome result (λ s. s.dots + 1 ≡ length (section_pieces text.now start)) }
    ensures digits { IfSome result (λ s. s.digits
        ≡ list_all is_digits (section_pieces text.now start)) }
    ensures chunks { IfSome result (λ s. s.chunks
        ≡ list_all (is_chunk is_ascii_alphanumeric) (section_pieces text.now start)) }
    ensures runs { is_some result
        ≡ list_all (is_run is_ascii_alphanumeric) (section_pieces text.now start) }
{
    let mut section = Section {
        end: start,
        next: DOT,
        dots: 0,
        digits: true,
        chunks: true,
    };
    'parts: loop {
        let run = scan_run(text, section.end, Class::Alphanumeric)?;
        section = Section {
            end: run.end,
            next: run.next,
            dots: section.dots,
            digits: both(section.digits, run.digits),
            chunks: both(section.chunks, run.chunk),
        };
        if section.next != DOT {
            return Some(section);
        }
        section.end += 1;
        section.dots += 1;
    }
}

// Returns whether both hold, by the second first: a compiler then tests the second alone.
#[inline(always)]
fn both(first: bool, second: bool) -> bool
    ensures { result ≡ (first && second) }
{
    if second { first } else { false }
}

// A run of a class: where it ends, the rank of what follows, whether it is all digits, and whether it is a chunk.
#[derive(Clone, Copy)]
struct Run {
    end: usize,
    next: u8,
    digits: bool,
    chunk: bool,
}

// Scans the run of a class at a place. Returns None if it is empty.
#[inline(always)]
fn scan_run(text: &[u8], start: usize, class: Class) -> Option<Run>
    requires within { start ≤ length text.now }
    requires class { HasDigits (contains class) }
    ensures end { IfSome result (λ run. run.end
        ≡ start + prefix_len (contains class) (drop start text.now)) }
    ensures next { IfSome result (λ run. run.next ≡ first_rank (drop run.end text.now)) }
    ensures digits { IfSome result (λ run. run.digits
        ≡ is_digits (take_while (contains class) (drop start text.now))) }
    ensures chunk { IfSome result (λ run. run.chunk
        ≡ is_chunk (contains class) (take_while (contains class) (drop start text.now))) }
    ensures some { IfSome result (λ run. start < run.end) }
    ensures within { IfSome result (λ run. run.end ≤ length text.now) }
    ensures none { IfNone result (prefix_len (contains class) (drop start text.now) ≡ 0) }
{
    let digits_end = run_end(text, start, Class::Digit);
    let next = rank_at(text, digits_end);
    if class.has_rank(next) {
        let end = run_end(text, digits_end, class);
        return Some(Run {
            end,
            next: rank_at(text, end),
            digits: false,
            chunk: true,
        });
    }
    if digits_end == start {
        return None;
    }
    Some(Run {
        end: digits_end,
        next,
        digits: true,
        chunk: is_numeral(&text[start..digits_end]),
    })
}

// Scans what follows the body of a strict or general version: perhaps a hyphen and a release, then perhaps a plus and
// metadata. Returns where the release ends, or None if something else follows.
#[inline(always)]
fn scan_tail(text: &[u8], end: usize, next: u8) -> Option<usize>
    requires within { end ≤ length text.now }
    requires next { next ≡ first_rank (drop end text.now) }
    ensures end { IfSome result (λ tail_end. tail_end
        ≡ end + prefix_len is_not_plus (drop end text.now)) }
    ensures whole { is_some result ≡ is_tail (drop end text.now) }
{
    if next == HYPHEN {
        return scan_release(text, end + 1);
    }
    if is_metadata_tail(text, end, next) {
        Some(end)
    } else {
        None
    }
}

// Scans a release and perhaps a plus and metadata. Returns where the release ends, or None if something else stands
// there.
#[inline(always)]
fn scan_release(text: &[u8], start: usize) -> Option<usize>
    requires { start ≤ length text.now }
    ensures end { IfSome result (λ end. end
        ≡ start + prefix_len is_not_plus (drop start text.now)) }
    ensures whole { is_some result ≡ is_released (drop start text.now) }
{
    let mut place = start;
    'chunks: loop {
        let run = scan_run(text, place, Class::Identifier)?;
        if !run.chunk {
            return None;
        }
        if run.next != DOT {
            if is_metadata_tail(text, run.end, run.next) {
                return Some(run.end);
            }
            return None;
        }
        place = run.end + 1;
    }
}

// Returns whether nothing follows a place, or a plus and metadata.
#[inline(always)]
#[tactic(auto, using(crate::proofs::lemmas::scan::Section::lone_plus, crate::proofs::lemmas::scan::Section::metadata_by_end, crate::proofs::lemmas::scan::Section::plus_at))]
fn is_metadata_tail(text: &[u8], start: usize, next: u8) -> bool
    requires within { start ≤ length text.now }
    requires next { next ≡ first_rank (drop start text.now) }
    ensures { result ≡ is_metadata_tail (drop start text.now) }
{
    if next == END {
        return true;
    }
    if next != PLUS {
        return false;
    }
    if start + 1 == text.len() {
        return false;
    }
    run_end(text, start + 1, Class::Metadata) == text.len()
}

// Returns whether only runs of letters and digits follow a place, each behind a dot or a sign.
#[inline(always)]
#[tactic(auto, using(crate::proofs::lemmas::scan::Section::marked_empty, crate::proofs::lemmas::scan::Section::marked_next))]
fn are_marked_runs(text: &[u8], start: usize) -> bool
    requires { start ≤ length text.now }
    ensures { result ≡ are_marked_runs (drop start text.now) }
{
    let mut place = start;
    'runs: while place < text.len() {
        if !Class::Mark.contains(text[place]) {
            return false;
        }
        let end = run_end(text, place + 1, Class::Alphanumeric);
        if end == place + 1 {
            return false;
        }
        place = end;
    }
    true
}
