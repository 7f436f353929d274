// What the words say.
ghost use Rattle.std.specs.Prelude.{◌≡◌, ◌≢◌, ◌≤◌, ◌<◌, ◌^◌, None, true, Ok, [], map, is_some, option_map, unwrap_or, IfOk, IfSome, OnOk, OnErr, string_bytes, codes};
ghost use Rattle.clap.specs.Values.{kind_of};
ghost use Rattle.clap.specs.Words.{rows_of, first_of, found_of, takes, has_subcommand, subcommand_rows_of};
ghost use Rattle.lt_words.specs.Local.{IsMadeAs};
ghost use Rattle.lt_words.specs.Commands.{program_app};
ghost use Rattle.lt_words.specs.Numbers.{number_text};
ghost use Rattle.lt_words.specs.Reading.{both_at, both_of, said_of, said_by, said_besides, command_of};
ghost use Rattle.lt_words.specs.Ranges.{HasRanges};
ghost use Rattle.lt_words.specs.Told.{ToldCommand};

use crate::Command;
use crate::commands::program;
use crate::numbers::number_text;
use clap::error::{Error, ErrorKind};
use clap::{ArgMatches, Command as ClapCommand};
use lt_base::Memory;
use lt_base::limits::{GREATEST_TIME, MOST_ROWS};
use std::alloc::Global;

pub(crate) fn text_at<'a>(matches: &ArgMatches<'a>, id: &str) -> Option<&'a str>
    ensures { option_map (λ s. s.now) result ≡ first_of id.now (rows_of (found_of matches.now)) }
{
    matches.get_str(id)
}

pub(crate) fn text_or_empty<'a>(matches: &ArgMatches<'a>, id: &str) -> &'a str
    ensures { result.now ≡ unwrap_or (first_of id.now (rows_of (found_of matches.now))) [] }
{
    match text_at(matches, id) {
        Some(text) => text,
        None => "",
    }
}

pub(crate) fn number_at(matches: &ArgMatches<'_>, id: &str, most: u64) -> Option<u64>
    requires digit { 9 ≤ most }
    ensures value { result ≡ option_map (number_text most) (first_of id.now (rows_of (found_of matches.now))) }
    ensures bounded { IfSome result (λ n. n ≤ most) }
{
    match text_at(matches, id) {
        Some(text) => Some(number_text(text, most)),
        None => None,
    }
}

/// The same as a number of 32 bits.
pub(crate) fn small_number_at(matches: &ArgMatches<'_>, id: &str, most: u64) -> Option<u32>
    requires digit { 9 ≤ most }
    requires small { most < 2 ^ 32 }
    ensures value { result ≡ option_map (number_text most) (first_of id.now (rows_of (found_of matches.now))) }
    ensures bounded { IfSome result (λ n. n ≤ most) }
{
    match text_at(matches, id) {
        Some(text) => Some(number_text(text, most) as u32),
        None => None,
    }
}

/// The two values of an argument that takes two.
pub(crate) fn both_at<'a>(matches: &ArgMatches<'a>, id: &str) -> Option<(&'a str, &'a str)>
    ensures { option_map (λ p. (p.0.now, p.1.now)) result ≡ both_at id.now (rows_of (found_of matches.now)) }
{
    match matches.get_strs(id) {
        Some(texts) => both_of(texts),
        None => None,
    }
}

// The first two of some texts, where there are two.
fn both_of<'a>(texts: &[&'a str]) -> Option<(&'a str, &'a str)>
    ensures { option_map (λ p. (p.0.now, p.1.now)) result ≡ both_of (map (λ s. s.now) texts.now) }
{
    match texts {
        [first, second, ..] => Some((first, second)),
        _ => None,
    }
}

// The command of this name, with the values that were found.
fn command_of<'a>(name: &str, matches: &ArgMatches<'a>) -> Command<'a>
    ensures said { said_of result ≡ said_by name.now (rows_of (found_of matches.now)) }
    ensures ranges { HasRanges result }
{
    if name == "check" {
        return check(matches);
    }
    if name == "meaning" {
        return meaning(matches);
    }
    if name == "run" {
        return run(matches);
    }
    if name == "plan" {
        return plan(matches);
    }
    command_besides(name, matches)
}

fn check<'a>(matches: &ArgMatches<'a>) -> Command<'a>
    ensures said { said_of result ≡ said_by (codes "check") (rows_of (found_of matches.now)) }
    ensures ranges { HasRanges result }
{
    Command::Check {
        program: text_or_empty(matches, "program"),
        config: text_at(matches, "config"),
    }
}

fn meaning<'a>(matches: &ArgMatches<'a>) -> Command<'a>
    ensures said { said_of result ≡ said_by (codes "meaning") (rows_of (found_of matches.now)) }
    ensures ranges { HasRanges result }
{
    Command::Meaning {
        program: text_or_empty(matches, "program"),
        inputs: text_or_empty(matches, "inputs"),
    }
}

fn run<'a>(matches: &ArgMatches<'a>) -> Command<'a>
    ensures said { said_of result ≡ said_by (codes "run") (rows_of (found_of matches.now)) }
    ensures ranges { HasRanges result }
{
    let schedule = text_or_empty(matches, "schedule");
    Command::Run {
        program: text_or_empty(matches, "program"),
        inputs: text_or_empty(matches, "inputs"),
        schedule,
        config: text_at(matches, "config"),
    }
}

fn plan<'a>(matches: &ArgMatches<'a>) -> Command<'a>
    ensures said { said_of result ≡ said_by (codes "plan") (rows_of (found_of matches.now)) }
    ensures ranges { HasRanges result }
{
    Command::Plan {
        config: text_or_empty(matches, "config"),
        horizon: number_at(matches, "horizon", GREATEST_TIME),
    }
}

// The command of this name that draws a schedule or looks at a run.
fn command_besides<'a>(name: &str, matches: &ArgMatches<'a>) -> Command<'a>
    ensures said { said_of result ≡ said_besides name.now (rows_of (found_of matches.now)) }
    ensures ranges { HasRanges result }
{
    if name == "sim" {
        return sim(matches);
    }
    if name == "big" {
        return big(matches);
    }
    if name == "watch" {
        return watch(matches);
    }
    if name == "audit" {
        return audit(matches);
    }
    trace(matches)
}

fn sim<'a>(matches: &ArgMatches<'a>) -> Command<'a>
    ensures said { said_of result ≡ said_besides (codes "sim") (rows_of (found_of matches.now)) }
    ensures ranges { HasRanges result }
{
    Command::Sim {
        program: text_or_empty(matches, "program"),
        inputs: text_or_empty(matches, "inputs"),
        config: text_or_empty(matches, "config"),
        seed: number_at(matches, "seed", u64::MAX).unwrap_or(0),
        horizon: number_at(matches, "horizon", GREATEST_TIME).unwrap_or(0),
    }
}

fn big<'a>(matches: &ArgMatches<'a>) -> Command<'a>
    ensures said { said_of result ≡ said_besides (codes "big") (rows_of (found_of matches.now)) }
    ensures ranges { HasRanges result }
{
    Command::Big {
        instants: number_at(matches, "instants", MOST_ROWS as u64).unwrap_or(0) as u32,
    }
}

fn watch<'a>(matches: &ArgMatches<'a>) -> Command<'a>
    ensures said { said_of result ≡ said_besides (codes "watch") (rows_of (found_of matches.now)) }
    ensures ranges { HasRanges result }
{
    Command::Watch {
        program: text_or_empty(matches, "program"),
        inputs: text_or_empty(matches, "inputs"),
        schedule: text_or_empty(matches, "schedule"),
        observer: text_or_empty(matches, "observer"),
        config: text_at(matches, "config"),
    }
}

fn audit<'a>(matches: &ArgMatches<'a>) -> Command<'a>
    ensures said { said_of result ≡ said_besides (codes "audit") (rows_of (found_of matches.now)) }
    ensures ranges { HasRanges result }
{
    Command::Audit {
        program: text_or_empty(matches, "program"),
        inputs: text_or_empty(matches, "inputs"),
        schedule: text_or_empty(matches, "schedule"),
        config: text_or_empty(matches, "config"),
    }
}

fn trace<'a>(matches: &ArgMatches<'a>) -> Command<'a>
    ensures said { said_of result ≡ said_besides (codes "trace") (rows_of (found_of matches.now)) }
    ensures ranges { HasRanges result }
{
    Command::Trace {
        program: text_or_empty(matches, "program"),
        inputs: text_or_empty(matches, "inputs"),
        schedule: text_or_empty(matches, "schedule"),
        config: text_or_empty(matches, "config"),
        node: text_at(matches, "node"),
        from: number_at(matches, "from", GREATEST_TIME).unwrap_or(0),
        to: number_at(matches, "to", GREATEST_TIME).unwrap_or(GREATEST_TIME),
    }
}

// The command of the matches, if they have one.
fn found_command<'a>(matches: ArgMatches<'a>) -> Option<Command<'a>>
    ensures said { option_map said_of result ≡ option_map (λ p. said_by p.0 p.1) (subcommand_rows_of matches.entry) }
    ensures ranges { IfSome result HasRanges }
    ensures variant { is_some result ≡ has_subcommand matches.entry }
{
    let command = match matches.subcommand() {
        Some((name, inner)) => Some(command_of(name, inner)),
        None => None,
    };
    drop(matches);
    command
}

// The command that the words say, if this one takes them.
fn take_words<'a>(
    command: ClapCommand<'a>,
    words: &'a [String],
) -> Result<Option<Command<'a>>, Memory>
    requires { IsMadeAs program_app command }
    ensures { ToldCommand (map string_bytes words.entry.now) result }
{
    match command.try_get_matches_from(words) {
        Ok(matches) => Ok(found_command(matches)),
        Err(error) => refuse_words(error),
    }
}

// The command that the words say, if `clap` takes them.
fn read<'a>(alloc: Global, words: &'a [String]) -> Result<Option<Command<'a>>, Memory>
    ensures { ToldCommand (map string_bytes words.entry.now) result }
{
    take_words(program(alloc)?, words)
}

/// Words that `clap` refuses say no command, but for its own want of memory.
pub(crate) fn refuse_words<C>(error: Error) -> Result<Option<C>, Memory>
    ensures none { IfOk result (λ command. command ≡ None) }
    ensures refused { OnOk result (kind_of error ≢ ErrorKind.OutOfMemory) }
    ensures memory { OnErr result (kind_of error ≡ ErrorKind.OutOfMemory) }
{
    let kind = error.kind();
    drop(error);
    match kind {
        ErrorKind::OutOfMemory => Err(Memory),
        _ => Ok(None),
    }
}

/// The command that the words after the program's name say. `None` exactly where `clap` refuses them; a question for help
/// or for a version is refused too. A name that begins with `-` stands after `--`.
pub fn read_words<'a>(alloc: Global, words: &'a [String]) -> Result<Option<Command<'a>>, Memory>
    ensures said { IfOk result (λ command. option_map said_of command ≡ command_of (map string_bytes words.entry.now)) }
    ensures ranges { IfOk result (λ command. IfSome command HasRanges) }
    ensures refused { result ≡ Ok None → takes program_app (map string_bytes words.entry.now) ≢ true }
{
    read(alloc, words)
}
