//! The program `vers`: reads lines from standard input, and writes a command's output to standard output.
//! docs/VERS.md has its rules.
#![tactic(auto)]

ghost use Rattle.std.specs.Prelude.{◌≡◌, MatchResult};
ghost use Rattle.std.specs.Process.{exit_status};
ghost use Rattle.vers_words.specs.Fault.{status_of};

mod run;

use run::run;
use std::env;
use std::env::Env;
use std::process::ExitCode;
use vers_words::Fault;

fn main(rt: HostRuntime) -> ExitCode {
    let Some(words) = words(&rt) else {
        return ending(&rt, Err(Fault::Usage));
    };
    let outcome = run(
        rt.alloc(),
        words.as_slice(),
        &mut rt.stdin(),
        &mut rt.stdout(),
    );
    ending(&rt, outcome)
}

// Returns the words after the program's name, or None if the system does not provide them.
fn words<R: Env + AllocGlobal>(rt: &R) -> Option<Vec<String>> {
    env::args(rt).ok()?.skip(1).collect(rt.alloc()).ok()
}

// Returns the exit code: a fault is printed, and sets its status, even if it cannot be printed.
fn ending(rt: &impl Eprint, outcome: Result<bool, Fault<'_>>) -> ExitCode
    ensures { MatchResult outcome.entry
        (λ _. exit_status result ≡ 0) (λ fault. exit_status result ≡ status_of fault) }
{
    match outcome {
        Ok(_) => ExitCode::SUCCESS,
        Err(fault) => {
            let _ = eprintln!(rt; "{fault}");
            ExitCode::from(fault.status())
        }
    }
}
