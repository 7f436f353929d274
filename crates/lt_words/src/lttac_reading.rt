// What the words of the second program say.
ghost use Rattle.std.specs.Prelude.{◌≡◌, ◌≢◌, true, Ok, None, map, is_some, option_map, IfOk, IfSome, string_bytes, codes};
ghost use Rattle.clap.specs.Words.{rows_of, found_of, takes, has_subcommand, subcommand_rows_of};
ghost use Rattle.lt_words.specs.Local.{IsMadeAs};
ghost use Rattle.lt_words.specs.Lttac.{lttac_app, lttac_said_of, lttac_said_by, lttac_command_of, HasLttacRanges, flag_at};
ghost use Rattle.lt_words.specs.Told.{ToldLttac};

use crate::LttacCommand;
use crate::commands::{LAST_INSTANT, MOST_WIDTH, WHOLE_JITTER, WHOLE_LOSS, second_program};
use crate::reading::{both_at, number_at, refuse_words, small_number_at, text_at, text_or_empty};
use clap::{ArgMatches, Command};
use lt_base::Memory;
use lt_base::limits::GREATEST_TIME;
use std::alloc::Global;

// The command of this name, with the values that were found.
fn named_command<'a>(name: &str, matches: &ArgMatches<'a>) -> LttacCommand<'a>
    ensures said { lttac_said_of result ≡ lttac_said_by name.now (rows_of (found_of matches.now)) }
    ensures ranges { HasLttacRanges result }
{
    if name == "emit" {
        return emit(matches);
    }
    if name == "schedule" {
        return schedule(matches);
    }
    if name == "draw" {
        return draw(matches);
    }
    plot(matches)
}

fn schedule<'a>(matches: &ArgMatches<'a>) -> LttacCommand<'a>
    ensures said { lttac_said_of result ≡ lttac_said_by (codes "schedule") (rows_of (found_of matches.now)) }
    ensures ranges { HasLttacRanges result }
{
    LttacCommand::Schedule {
        program: text_or_empty(matches, "program"),
        inputs: text_or_empty(matches, "inputs"),
        config: text_or_empty(matches, "config"),
        seed: number_at(matches, "seed", u64::MAX).unwrap_or(0),
        horizon: number_at(matches, "horizon", GREATEST_TIME).unwrap_or(0),
        jitter: number_at(matches, "jitter", WHOLE_JITTER),
        loss: number_at(matches, "loss", WHOLE_LOSS),
    }
}

fn draw<'a>(matches: &ArgMatches<'a>) -> LttacCommand<'a>
    ensures said { lttac_said_of result ≡ lttac_said_by (codes "draw") (rows_of (found_of matches.now)) }
    ensures ranges { HasLttacRanges result }
{
    LttacCommand::Draw {
        program: text_or_empty(matches, "program"),
        inputs: text_or_empty(matches, "inputs"),
        schedule: text_or_empty(matches, "schedule"),
        config: text_or_empty(matches, "config"),
        node: text_at(matches, "node"),
        from: number_at(matches, "from", GREATEST_TIME),
        to: number_at(matches, "to", GREATEST_TIME),
        width: small_number_at(matches, "width", MOST_WIDTH),
    }
}

fn plot<'a>(matches: &ArgMatches<'a>) -> LttacCommand<'a>
    ensures said { lttac_said_of result ≡ lttac_said_by (codes "plot") (rows_of (found_of matches.now)) }
    ensures ranges { HasLttacRanges result }
{
    LttacCommand::Plot {
        program: text_or_empty(matches, "program"),
        inputs: text_or_empty(matches, "inputs"),
        along: both_at(matches, "along"),
        observer: text_at(matches, "observer"),
        from: small_number_at(matches, "from", LAST_INSTANT),
        to: small_number_at(matches, "to", LAST_INSTANT),
        width: small_number_at(matches, "width", MOST_WIDTH),
    }
}

// Whether an option without a value is there.
fn flag_at(matches: &ArgMatches<'_>, id: &str) -> bool
    ensures { result ≡ flag_at id.now (rows_of (found_of matches.now)) }
{
    text_or_empty(matches, id) == "true"
}

fn emit<'a>(matches: &ArgMatches<'a>) -> LttacCommand<'a>
    ensures said { lttac_said_of result ≡ lttac_said_by (codes "emit") (rows_of (found_of matches.now)) }
    ensures ranges { HasLttacRanges result }
{
    LttacCommand::Emit {
        header: flag_at(matches, "header"),
        program: text_or_empty(matches, "program"),
        config: text_or_empty(matches, "config"),
        node: text_or_empty(matches, "node"),
    }
}

// The command of the matches, if they have one.
fn found_command<'a>(matches: ArgMatches<'a>) -> Option<LttacCommand<'a>>
    ensures said { option_map lttac_said_of result ≡ option_map (λ p. lttac_said_by p.0 p.1) (subcommand_rows_of matches.entry) }
    ensures ranges { IfSome result HasLttacRanges }
    ensures variant { is_some result ≡ has_subcommand matches.entry }
{
    let command = match matches.subcommand() {
        Some((name, inner)) => Some(named_command(name, inner)),
        None => None,
    };
    drop(matches);
    command
}

// The command that the words say, if this one takes them.
fn take_words<'a>(
    command: Command<'a>,
    words: &'a [String],
) -> Result<Option<LttacCommand<'a>>, Memory>
    requires { IsMadeAs lttac_app command }
    ensures { ToldLttac (map string_bytes words.entry.now) result }
{
    match command.try_get_matches_from(words) {
        Ok(matches) => Ok(found_command(matches)),
        Err(error) => refuse_words(error),
    }
}

// The command that the words say, if `clap` takes them.
fn read<'a>(alloc: Global, words: &'a [String]) -> Result<Option<LttacCommand<'a>>, Memory>
    ensures { ToldLttac (map string_bytes words.entry.now) result }
{
    take_words(second_program(alloc)?, words)
}

/// The command of `lttac` that the words after the program's name say. `None` exactly where `clap` refuses them; a question for help
/// or for a version is refused too. A name that begins with `-` stands after `--`.
pub fn read_lttac_words<'a>(
    alloc: Global,
    words: &'a [String],
) -> Result<Option<LttacCommand<'a>>, Memory>
    ensures said { IfOk result (λ command. option_map lttac_said_of command ≡ lttac_command_of (map string_bytes words.entry.now)) }
    ensures ranges { IfOk result (λ command. IfSome command HasLttacRanges) }
    ensures refused { result ≡ Ok None → takes lttac_app (map string_bytes words.entry.now) ≢ true }
{
    read(alloc, words)
}
