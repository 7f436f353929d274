// Arguments, and how a command takes them.
ghost use Rattle.std.specs.Prelude.{◌≡◌, false, IfOk};
ghost use Rattle.clap.specs.Words.{App, rule_of, with_rule, with_subcommand};
ghost use Rattle.lt_words.specs.Local.{HasNoGlobals, IsMadeAs, MakesCommand};
ghost use Rattle.lt_words.specs.Commands.{text_rule, optional_rule, both_rule, ranged_rule, number_rule, needed_number_rule, counted_rule, name_rule, flag_rule};

use clap::builder::ValueParser;
use clap::{Arg, ArgAction, Command};
use lt_base::Memory;
use std::alloc::Global;

/// A text that a command needs.
pub fn text<'a>(alloc: Global, id: &'a str) -> Arg<'a>
    ensures rule { rule_of result ≡ text_rule id.entry.now }
    ensures local { result.global ≡ false }
{
    Arg::new(alloc, id).required(true)
}

/// A text that may be left out.
pub fn optional_text<'a>(alloc: Global, id: &'a str) -> Arg<'a>
    ensures rule { rule_of result ≡ optional_rule id.entry.now }
    ensures local { result.global ≡ false }
{
    Arg::new(alloc, id)
}

/// Two texts that are left out together.
pub fn both_texts<'a>(alloc: Global, id: &'a str) -> Arg<'a>
    ensures rule { rule_of result ≡ both_rule id.entry.now }
    ensures local { result.global ≡ false }
{
    Arg::new(alloc, id).num_args(2_usize)
}

/// An option `--ID` whose value is a whole number within these bounds.
pub fn ranged_number<'a>(alloc: Global, id: &'a str, least: u64, most: u64) -> Arg<'a>
    ensures rule { rule_of result ≡ ranged_rule id.entry.now least most }
    ensures local { result.global ≡ false }
{
    Arg::new(alloc, id)
        .long(id)
        .value_parser(ValueParser::Unsigned(least, most))
}

/// An option `--ID` whose value is a whole number up to a bound.
pub fn number<'a>(alloc: Global, id: &'a str, most: u64) -> Arg<'a>
    ensures rule { rule_of result ≡ number_rule id.entry.now most }
    ensures local { result.global ≡ false }
{
    ranged_number(alloc, id, 0, most)
}

/// An option `--ID` whose value is a whole number up to a bound, and that is needed.
pub fn needed_number<'a>(alloc: Global, id: &'a str, most: u64) -> Arg<'a>
    ensures rule { rule_of result ≡ needed_number_rule id.entry.now most }
    ensures local { result.global ≡ false }
{
    number(alloc, id, most).required(true)
}

/// A whole number from 1 up to a bound that a command needs.
pub fn count_argument<'a>(alloc: Global, id: &'a str, most: u64) -> Arg<'a>
    ensures rule { rule_of result ≡ counted_rule id.entry.now most }
    ensures local { result.global ≡ false }
{
    text(alloc, id).value_parser(ValueParser::Unsigned(1, most))
}

/// An option `--ID` whose value is a text.
pub fn name<'a>(alloc: Global, id: &'a str) -> Arg<'a>
    ensures rule { rule_of result ≡ name_rule id.entry.now }
    ensures local { result.global ≡ false }
{
    Arg::new(alloc, id).long(id)
}

/// An option `--ID` without a value.
pub fn flag<'a>(alloc: Global, id: &'a str) -> Arg<'a>
    ensures rule { rule_of result ≡ flag_rule id.entry.now }
    ensures local { result.global ≡ false }
{
    name(alloc, id).action(ArgAction::SetTrue)
}

/// The command with one more argument.
fn add_argument<'a>(command: Command<'a>, argument: Arg<'a>) -> Result<Command<'a>, Memory>
    requires { argument.global ≡ false }
    ensures { (app : App) → IsMadeAs app command.entry → MakesCommand (with_rule app (rule_of argument.entry)) result }
{
    Ok(command.arg(argument)?)
}

/// The command with one more argument, where memory was found for it.
pub fn with_argument<'a>(
    command: Result<Command<'a>, Memory>,
    argument: Arg<'a>,
) -> Result<Command<'a>, Memory>
    requires { argument.global ≡ false }
    ensures { (app : App) → MakesCommand app command.entry → MakesCommand (with_rule app (rule_of argument.entry)) result }
{
    match command {
        Ok(command) => add_argument(command, argument),
        Err(error) => {
            drop(argument);
            Err(error)
        }
    }
}

/// The command with one more command below it.
fn add_command<'a>(command: Command<'a>, below: Command<'a>) -> Result<Command<'a>, Memory>
    requires { HasNoGlobals below }
    ensures { (app down : App) → IsMadeAs app command.entry → IsMadeAs down below.entry → MakesCommand (with_subcommand app down.top) result }
{
    Ok(command.subcommand(below)?)
}

/// The command with one more command below it, where memory was found for that.
fn add_made<'a>(
    command: Command<'a>,
    below: Result<Command<'a>, Memory>,
) -> Result<Command<'a>, Memory>
    requires { IfOk below HasNoGlobals }
    ensures { (app down : App) → IsMadeAs app command.entry → MakesCommand down below.entry → MakesCommand (with_subcommand app down.top) result }
{
    match below {
        Ok(below) => add_command(command, below),
        Err(error) => {
            drop(command);
            Err(error)
        }
    }
}

/// The command with one more command below it, where memory was found for both.
pub fn with_command<'a>(
    command: Result<Command<'a>, Memory>,
    below: Result<Command<'a>, Memory>,
) -> Result<Command<'a>, Memory>
    requires { IfOk below HasNoGlobals }
    ensures { (app down : App) → MakesCommand app command.entry → MakesCommand down below.entry → MakesCommand (with_subcommand app down.top) result }
{
    match command {
        Ok(command) => add_made(command, below),
        Err(error) => {
            drop(below);
            Err(error)
        }
    }
}
