//! The program `versions`: sorts lines by the versions in them, picks the newest, and answers questions about versions.
//! docs/VERSIONS.md has its rules.
#![tactic(auto)]

ghost use Rattle.std.specs.Prelude.{◌≡◌, if◌then◌else◌, MatchResult};
ghost use Rattle.std.specs.Process.{exit_status};
ghost use Rattle.version_words.specs.Wrong.{status_of};

mod files;
mod output;
mod run;

use files::SystemFiles;
use output::Output;
use run::run;
use std::cell::Cell;
use std::env::Env;
use std::process::ExitCode;
use std::{env, io};
use version_runs::TaskFault;
use version_usage::faults::WordsFault;
use version_words::Fault;

// The status that a shell gives for a program whose reader has gone: that of the signal SIGPIPE.
const READER_GONE: u8 = 141;

// The status of an answer that is no.
const NO: u8 = 1;

fn main(rt: HostRuntime) -> ExitCode {
    let Some(words) = words(&rt) else {
        return ending(&rt, Err(not_text(&rt)), None);
    };
    let mut files = SystemFiles {
        rt: &rt,
        refused: Cell::new(None),
    };
    let mut output = Output::new(rt.stdout());
    let outcome = run(
        rt.alloc(),
        words.as_slice(),
        &mut files,
        &mut rt.stdin(),
        &mut output,
    );
    if output.has_no_reader() {
        return ExitCode::from(READER_GONE);
    }
    ending(&rt, outcome, files.refused.get())
}

// Returns the words after the program's name, or None if the system does not provide them.
fn words<R: Env + AllocGlobal>(rt: &R) -> Option<Vec<String>> {
    env::args(rt).ok()?.skip(1).collect(rt.alloc()).ok()
}

// Returns the fault of words that the system does not provide as text.
fn not_text<'w>(rt: &impl AllocGlobal) -> Fault<'w> {
    let text = "error: the words are not UTF-8, or too many for the memory\n";
    Fault::Words(match String::from_str(rt.alloc(), text) {
        Ok(text) => WordsFault::Usage(text),
        Err(_) => WordsFault::Memory,
    })
}

// Returns the exit code: 1 where the answer is no. A fault is printed, and sets its status, even if it cannot be printed.
// `refused` is why the system refused a file, if it did.
fn ending(rt: &impl Eprint, outcome: Result<bool, Fault<'_>>, refused: Option<i32>) -> ExitCode
    ensures { MatchResult outcome.entry
        (λ answer. exit_status result ≡ if answer then 0 else 1)
        (λ fault. exit_status result ≡ status_of fault) }
{
    match outcome {
        Ok(true) => ExitCode::SUCCESS,
        Ok(false) => ExitCode::from(NO),
        Err(fault) => {
            tell(rt, &fault, refused);
            ExitCode::from(fault.status())
        }
    }
}

// Prints a fault, and of a file's why the system refused it. What is wrong with words says itself whose it is.
fn tell(rt: &impl Eprint, fault: &Fault<'_>, refused: Option<i32>) {
    let _ = match (fault, refused) {
        (Fault::Words(WordsFault::Usage(text)), _) => eprint!(rt; "{text}"),
        (Fault::Task(TaskFault::Read(_) | TaskFault::Write(Some(_))), Some(code)) => {
            let why = io::Error::from_raw_os_error(code);
            eprintln!(rt; "versions: {fault}: {why}")
        }
        (fault, _) => eprintln!(rt; "versions: {fault}"),
    };
}
