//! The commands and the arguments that they take, as `clap` reads them.

ghost use Rattle.std.specs.Prelude.{◌≡◌, ◌++◌, [], false, map, IfOk};
ghost use Rattle.clap.specs.Words.{app_of, shape_of};
ghost use Rattle.version_usage.specs.Grammar.{command_app, command_shape, program_app, program_shape, rule_of_row, rules_of, with_rules, HasNoGlobal};

mod arguments;

use crate::named::Verb;
use crate::table::{Argument, COMMANDS, Entry, entry_of};
use arguments::argument;
use clap::Command;
use std::alloc::{AllocError, Global};

// The version of the library, and of the program.
const VERSION: &str = "0.1.0";

/// What help says of the program.
pub const ABOUT: &str = "Sorts, filters and explains version numbers of mixed shapes";

// What help says after the commands.
const STATUSES: &str =
    "Status: 0 for an answer, even an empty one; 1 for a text that is no version or set, and for a no of
test, implies and meets; 2 for wrong words; 3 if there is no memory, or a file can't be read or written.";

/// Returns the program with all its commands. The words that it reads begin after its name.
pub fn program<'a>(alloc: Global) -> Result<Command<'a>, AllocError>
    ensures { IfOk result (λ program. app_of program ≡ program_app) }
{
    let mut program = program_alone(alloc).bin_name("versions")?;
    for (name, command) in COMMANDS {
        program = program.subcommand(command_of(alloc, name, command)?)?;
    }
    Ok(program)
}

// Returns the program without its commands.
fn program_alone<'a>(alloc: Global) -> Command<'a>
    ensures app { app_of result ≡ record { top = program_shape; subs = [] } }
    ensures local { HasNoGlobal result }
{
    Command::new(alloc, "versions")
        .about(ABOUT)
        .after_help(STATUSES)
        .no_binary_name(true)
        .version(VERSION)
        .disable_help_subcommand(true)
        .subcommand_required(true)
        .arg_required_else_help(true)
}

// Returns a command with its arguments.
fn command_of<'a>(
    alloc: Global,
    name: &'static str,
    command: Verb,
) -> Result<Command<'a>, AllocError>
    ensures shape { IfOk result (λ made. shape_of made ≡ command_shape name.now (rules_of command)) }
    ensures local { IfOk result HasNoGlobal }
{
    let entry = entry_of(command);
    let command = with_arguments(alloc, command_alone(alloc, name, &entry), entry.own)?;
    with_arguments(alloc, command, entry.shared)
}

// Returns a command without its arguments.
fn command_alone<'a>(alloc: Global, name: &'static str, entry: &Entry) -> Command<'a>
    ensures app { app_of result ≡ command_app name.now [] }
    ensures local { HasNoGlobal result }
{
    let command = Command::new(alloc, name)
        .about(entry.about)
        .after_help(entry.example);
    match entry.usage {
        Some(usage) => command.override_usage(usage),
        None => command,
    }
}

// Adds arguments to a command.
fn with_arguments<'a>(
    alloc: Global,
    command: Command<'a>,
    arguments: &'static [Argument],
) -> Result<Command<'a>, AllocError>
    requires { HasNoGlobal command }
    ensures app { IfOk result (λ made. app_of made ≡ with_rules (app_of command.entry)
        (map (rule_of_row (λ name. name.now)) arguments.now)) }
    ensures local { IfOk result HasNoGlobal }
{
    let mut made = command;
    for row in arguments {
        made = made.arg(argument(alloc, row))?;
    }
    Ok(made)
}
