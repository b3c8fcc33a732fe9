//! What an argument is.

ghost use Rattle.std.specs.Prelude.{◌≡◌, false, Some};
ghost use Rattle.clap.specs.Words.{rule_of};
ghost use Rattle.version_usage.specs.Grammar.{first_word_rule, option_rule, rule_of_row, valued_rule};

use crate::table::{Argument, Form};
use clap::builder::ValueParser;
use clap::{Arg, ArgAction};
use std::alloc::Global;

/// Returns an argument of the table.
pub fn argument<'a>(alloc: Global, row: &Argument) -> Arg<'a>
    ensures rule { rule_of result ≡ rule_of_row (λ name. name.now) row.now }
    ensures local { result.global ≡ false }
{
    match row.form {
        Form::Word => word(alloc, row).required(true),
        Form::FirstWord => word(alloc, row),
        Form::TwoOrThree => word(alloc, row).required(true).num_args(2..=3),
        // Their id is not the name of a word that has to be there.
        Form::Words => Arg::new(alloc, "WORDS")
            .value_name(row.name)
            .num_args(0..)
            .action(ArgAction::Append)
            .help(row.help),
        Form::Flag => option(alloc, row).action(ArgAction::SetTrue),
        Form::Number => valued(alloc, row, "N", ValueParser::Unsigned(1, u64::MAX)),
        Form::Text(value) => valued(alloc, row, value, ValueParser::String),
    }
}

// Returns a word that may be there.
fn word<'a>(alloc: Global, row: &Argument) -> Arg<'a>
    ensures rule { rule_of result ≡ first_word_rule row.now.name.now }
    ensures local { result.global ≡ false }
{
    Arg::new(alloc, row.name)
        .action(ArgAction::Set)
        .help(row.help)
}

// Returns an option with a value, which help names so.
fn valued<'a>(
    alloc: Global,
    row: &Argument,
    value: &'static str,
    parser: ValueParser<'static>,
) -> Arg<'a>
    ensures rule { rule_of result ≡ valued_rule row.now.letter row.now.name.now parser.entry }
    ensures local { result.global ≡ false }
{
    option(alloc, row)
        .action(ArgAction::Set)
        .value_name(value)
        .value_parser(parser)
}

// Returns an option.
fn option<'a>(alloc: Global, row: &Argument) -> Arg<'a>
    ensures rule { rule_of result ≡ option_rule row.now.letter row.now.name.now }
    ensures local { result.global ≡ false }
{
    let option = Arg::new(alloc, row.name).long(row.name).help(row.help);
    match row.letter {
        Some(letter) => option.short(letter),
        None => option,
    }
}
