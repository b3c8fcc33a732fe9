//! The commands that ask the same of each of several versions: `show`, `key`, `why` and `next`.
ghost use Rattle.std.specs.Prelude.{◌≡◌, ◌==◌, ◌<◌, ◌++◌, ◌∷◌, [], false, length, map, ℕ, Bool, List, Option, Some, IfErr, IfOk, OnOk};
ghost use Rattle.std.specs.Io.KnownBytes.{Consumes, IsAtEnd};
ghost use Rattle.version_commands.specs.Each.{are_versions, others_among, version_asked, versions_among, AreAnswered, HasSet, HaveAnswered, IsAnswer, IsAnswered, IsAsked, IsHead};
ghost use Rattle.version_runs.specs.Place.{place_of, scheme_of};
ghost use Rattle.version_commands.specs.{Cause.ComesOfAnswering, Cause.ComesOfAsking, Cause.ComesOfQuestion, Hints.IsOfEach, Hints.MayTell, Run.is_of_word, Run.IfOfWord, declared.words.each.Answers.Answers};
ghost use Rattle.version_runs.specs.Place.{line_text};
ghost use Rattle.version_answers.specs.One.{Adds};
ghost use Rattle.version_lines.specs.Lines.{lines_of, plain_end};
ghost use Rattle.version_schemes.specs.any.AnyVersion.{plain_any};

use crate::bad::refuse_first;
use crate::hints::of_words::tell_others;
use crate::inputs::read_standard;
use crate::lines::pick::{EveryVersion, Takes, pick};
use crate::words::word::set_of_word;
use std::alloc::{AllocError, Global};
use version_answers::{
    Naming, Set, add_head, add_json, add_key_line, add_next, add_show, add_why, quoted, room_of,
};
use version_lines::{LineEnd, Lines, Source};
use version_runs::{EachOptions, Files, Question, TaskFault, line_text};
use version_schemes::{AnyVersion, Scheme};

/// The answers to a question, and the words that were left out.
#[derive(Drop)]
pub struct Answered<'w> {
    pub output: Vec<u8>,
    /// Those that are no versions.
    pub others: Vec<&'w str>,
}

/// Answers the question for each version: of the words, or without any of the lines of the reader. Words that are none
/// are left out beside one that is, else the last of them is the fault, and those before it are told; a line that is none
/// is a fault.
pub fn answer_each<'w, F: Files, R: Source>(
    alloc: Global,
    question: Question<'w>,
    options: &EachOptions<'w>,
    files: &F,
    reader: &mut R,
) -> Result<Answered<'w>, TaskFault<'w>>
    requires hints { MayTell (IsOfEach question options.now) F.may_hint }
    ensures output { IfOk result (λ answered. IsAnswered question.entry options.now
        (R.remaining reader.old) (R.remaining reader.new) answered.output.items) }
    ensures others { IfOk result (λ answered. map (λ word. word.now) answered.others.items
        ≡ others_among question.entry options.now.naming (map (λ word. word.now) options.now.versions.items)) }
    ensures all { IfOk result (λ answered.
        (length answered.others.items == 0) ≡ are_versions question.entry options.now) }
    ensures unread { length options.now.versions.items == 0 ≡ false → reader.new ≡ reader.old }
    ensures early { IfOfWord (reader.new ≡ reader.old) result }
    ensures asked { OnOk result (IsAsked question.entry options.now) }
    ensures faults { IfErr result (ComesOfAsking question.entry options.now (R.may_fail reader.old)
        (R.remaining reader.old)) }
{
    let asked = ask(alloc, question, options.end)?;
    if options.versions.is_empty() {
        let input = read_standard(alloc, reader)?;
        answer_lines(alloc, question, options, asked, input.as_slice())
    } else {
        answer_words(
            alloc,
            question,
            options,
            options.versions.as_slice(),
            asked,
            files,
        )
    }
}

// What stands before the answers, and what a question about a set needs for each: the set, and room for its members.
#[derive(Drop)]
struct Prepared {
    head: Vec<u8>,
    set: Option<Set>,
    room: Vec<u8>,
}

// Reads the set that a question is about, if it is about one. It fails if the word is none.
fn ask<'w>(alloc: Global, question: Question<'w>, end: u8) -> Result<Prepared, TaskFault<'w>>
    ensures head { IfOk result (λ asked. IsHead question.entry end asked.head.items) }
    ensures set { IfOk result (λ asked. HasSet question.entry asked.set) }
    ensures faults { IfErr result (ComesOfQuestion question.entry) }
{
    let mut head = Vec::new(alloc);
    let Question::Why(scheme, word) = question else {
        return Ok(Prepared {
            head,
            set: None,
            room: Vec::new(alloc),
        });
    };
    let set = set_of_word(alloc, scheme, word)?;
    add_head(word.as_bytes(), set.has_any(), end, &mut head)?;
    Ok(Prepared {
        head,
        set: Some(set),
        room: room_of(alloc, scheme, word.as_bytes())?,
    })
}

// Answers the question for each word that is a version. If none is, it fails with the last word, and tells the others.
fn answer_words<'w, F: Files>(
    alloc: Global,
    question: Question<'w>,
    options: &EachOptions<'w>,
    words: &[&'w str],
    asked: Prepared,
    files: &F,
) -> Result<Answered<'w>, TaskFault<'w>>
    requires set { HasSet question asked.set }
    requires words { words.now ≡ options.now.versions.items }
    requires some { 0 < length words.now }
    requires hints { MayTell (IsOfEach question options.now) F.may_hint }
    ensures answers { IfOk result (λ answered. Adds (AreAnswered question.entry options.now.naming options.now.end
        (versions_among question.entry options.now.naming (map (λ word. word.now) words.now)))
        asked.head.items answered.output.items) }
    ensures others { IfOk result (λ answered. map (λ word. word.now) answered.others.items
        ≡ others_among question.entry options.now.naming (map (λ word. word.now) words.now)) }
    ensures asked { OnOk result (IsAsked question.entry options.now) }
    ensures faults { (fails : Bool) (old : Option (List ℕ))
        → IfErr result (ComesOfAsking question.entry options.now fails old) }
{
    let mut answers = Answers {
        alloc,
        question,
        naming: options.naming,
        end: options.end,
        crlf: options.crlf,
        set: asked.set,
        room: asked.room,
        output: asked.head,
        unanswered: None,
    };
    let spelling = question.spelling(options.naming);
    let mut others = Vec::new(alloc);
    for word in words {
        match spelling.version(word.as_bytes()) {
            Some(version) => answers.add(word.as_bytes(), &version)?,
            None => add_other(&mut others, word)?,
        }
    }
    match words {
        [before @ .., last] if others.len() == words.len() => {
            tell_others(&spelling, before, files);
            Err(TaskFault::NotVersion(last, spelling.remark(last.as_bytes())))
        }
        _ => answers.finish(others),
    }
}

// Adds a word to those that are no versions.
fn add_other<'w>(others: &mut Vec<&'w str>, word: &'w str) -> Result<(), AllocError>
    ensures { OnOk result (map (λ other. other.now) others.new.items
        ≡ map (λ other. other.now) others.old.items ++ word.now ∷ []) }
{
    others.push(word)?;
    Ok(())
}

// Answers the question for each line. It fails with the first that is no version.
fn answer_lines<'w>(
    alloc: Global,
    question: Question<'w>,
    options: &EachOptions<'w>,
    asked: Prepared,
    input: &[u8],
) -> Result<Answered<'w>, TaskFault<'w>>
    requires set { HasSet question asked.set }
    requires words { options.now.versions.items ≡ [] }
    ensures answers { IfOk result (λ answered. Adds (AreAnswered question.entry options.now.naming options.now.end
        (map (line_text options.now.crlf) (lines_of (plain_end options.now.end) input.now)))
        asked.head.items answered.output.items) }
    ensures others { IfOk result (λ answered. answered.others.items ≡ []) }
    ensures early { IfErr result (λ fault. is_of_word fault ≡ false) }
    ensures faults { (fails : Bool) (old new : Option (List ℕ)) → Consumes old new input.now → IsAtEnd new
        → IfErr result (ComesOfAsking question.entry options.now fails old) }
{
    let mut answers = Answers {
        alloc,
        question,
        naming: options.naming,
        end: options.end,
        crlf: options.crlf,
        set: asked.set,
        room: asked.room,
        output: asked.head,
        unanswered: None,
    };
    let lines: Lines<'_, 'w> = Lines::of(LineEnd::plain(options.end), None, input);
    let picked = pick(alloc, &mut answers, &EveryVersion, lines)?;
    let place = question.place(options.naming, options.crlf);
    refuse_first(alloc, &place, None, picked.bad.as_slice())?;
    answers.finish(Vec::new(alloc))
}

// The answers to versions, one after another.
#[derive(Drop)]
struct Answers<'q, 'a> {
    alloc: Global,
    question: Question<'q>,
    naming: Naming<'q>,
    end: u8,
    crlf: bool,
    set: Option<Set>,
    room: Vec<u8>,
    output: Vec<u8>,
    // The first text whose version has no answer. Those after it are not asked.
    unanswered: Option<&'a [u8]>,
}

impl<'a> Answers<'_, 'a> {
    // Adds the answer for a text, which is this version.
    fn add(&mut self, text: &'a [u8], version: &AnyVersion<'_>) -> Result<(), AllocError>
        requires set { HasSet self.old.question self.old.set }
        requires version { version_asked self.old.question self.old.naming text.now ≡ Some (plain_any version.now) }
        ensures question { self.new.question ≡ self.old.question }
        ensures naming { self.new.naming ≡ self.old.naming }
        ensures crlf { self.new.crlf ≡ self.old.crlf }
        ensures set { self.new.set ≡ self.old.set }
        ensures answers { OnOk result ((first : Answers) → (texts : List (List ℕ))
            → HaveAnswered first self.old texts
            → HaveAnswered first self.new (texts ++ text.now ∷ [])) }
    {
        if self.unanswered.is_none() && !self.answer(text, version)? {
            self.unanswered = Some(text);
        }
        Ok(())
    }

    // Adds the answer for a text and its version, and returns whether there is one.
    fn answer(&mut self, text: &[u8], version: &AnyVersion<'_>) -> Result<bool, AllocError>
        requires set { HasSet self.old.question self.old.set }
        requires scheme { (plain_any version.now).scheme ≡ scheme_of self.old.question }
        ensures answer { IfOk result (λ found. Adds
            (IsAnswer self.old.question self.old.naming self.old.end text.now (plain_any version.now) found)
            self.old.output.items self.new.output.items) }
        ensures question { self.new.question ≡ self.old.question }
        ensures naming { self.new.naming ≡ self.old.naming }
        ensures end { self.new.end ≡ self.old.end }
        ensures crlf { self.new.crlf ≡ self.old.crlf }
        ensures set { self.new.set ≡ self.old.set }
        ensures unanswered { self.new.unanswered ≡ self.old.unanswered }
    {
        let (alloc, end, output) = (self.alloc, self.end, &mut self.output);
        match (self.question, version.mixed(), &self.set) {
            (Question::Show, Some(mixed), _) => add_show(mixed, end, output)?,
            (Question::Json, Some(mixed), _) => add_json(alloc, mixed, end, output)?,
            (Question::Key(_), _, _) => add_key_line(alloc, version, end, output)?,
            (Question::Why(_, word), _, Some(set)) => {
                let room = self.room.as_mut_slice();
                add_why(word, set, text, version, end, room, output)?;
            }
            (Question::Next(step), Some(mixed), _) => {
                return add_next(alloc, self.naming.before(text), mixed, step, end, output);
            }
            _ => unreachable!(),
        }
        Ok(true)
    }

    // Returns all of them, and the words that were left out. It fails with the first text that has none.
    fn finish<'w>(self, others: Vec<&'w str>) -> Result<Answered<'w>, TaskFault<'w>>
        ensures answers { IfOk result (λ answered. (first : Answers) → (texts : List (List ℕ))
            → HaveAnswered first self.entry texts
            → Adds (AreAnswered first.question first.naming first.end texts) first.output.items answered.output.items) }
        ensures others { IfOk result (λ answered. answered.others.items ≡ others.entry.items) }
        ensures faults { IfErr result (λ fault. (first : Answers) → (texts : List (List ℕ))
            → HaveAnswered first self.entry texts
            → ComesOfAnswering first.question first.naming first.end texts fault) }
    {
        match self.unanswered {
            None => Ok(Answered {
                output: self.output,
                others,
            }),
            Some(text) => Err(TaskFault::NoNext(quoted(self.alloc, text)?)),
        }
    }
}

impl<'a> Takes<'a> for Answers<'_, 'a> {
    ghost use Rattle.std.specs.Prelude.{◌≡◌, ⊤, map};
    ghost use Rattle.version_commands.specs.{Each.HasSet, Each.HaveAnswered};
    ghost use Rattle.version_runs.specs.Place.{place_of, line_text, reads_of};
    ghost use Rattle.version_lines.specs.Sort.{version_in};

    ghost versions = { λ answers. version_in (reads_of (place_of answers.question answers.naming answers.crlf)) };

    ghost IsReady = { λ answers. HasSet answers.question answers.set };

    ghost HasTaken = { λ first now lines.
        HaveAnswered first now (map (line_text first.crlf) lines) };

    fn text(&self, line: &'a [u8]) -> Option<(Scheme, &'a [u8])> {
        let place = self.question.place(self.naming, self.crlf);
        Some((place.spelling.scheme, place.text(line)))
    }

    fn take(&mut self, version: &AnyVersion<'a>, line: &'a [u8]) -> Result<(), AllocError> {
        self.add(line_text(self.crlf, line), version)
    }
}
