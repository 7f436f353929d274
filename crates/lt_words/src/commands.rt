// The commands of both programs, as `clap` is told of them.
ghost use Rattle.std.specs.Prelude.{IfOk};
ghost use Rattle.clap.specs.Words.{App, new_app};
ghost use Rattle.lt_words.specs.Local.{IsMadeAs, MakesCommand};
ghost use Rattle.lt_words.specs.Commands.{check_app, meaning_app, run_app, plan_app, fed_app, scheduled_app, placed_app, sim_app, big_app, replayed_app, watch_app, audit_app, trace_app};
ghost use Rattle.lt_words.specs.Commands.{with_programs, with_drawings, with_views, bare_app, program_app};
ghost use Rattle.lt_words.specs.Lttac.{emit_app, schedule_app, draw_app, plot_app, with_window, lttac_app};

use crate::arguments::{
    both_texts, count_argument, flag, name, needed_number, number, optional_text, ranged_number,
    text, with_argument, with_command,
};
use clap::Command;
use lt_base::Memory;
use lt_base::limits::{GREATEST_TIME, MOST_ROWS};
use std::alloc::Global;

/// The greatest jitter, which leaves the whole of an interval.
pub(crate) const WHOLE_JITTER: u64 = 1_000;

/// The greatest loss, by which each message is lost that may be lost.
pub(crate) const WHOLE_LOSS: u64 = 1_000;

// The least width of a picture.
const LEAST_WIDTH: u64 = 400;

/// The greatest width of a picture.
pub(crate) const MOST_WIDTH: u64 = 10_000;

/// The last instant that a picture of outputs can begin or end at.
pub(crate) const LAST_INSTANT: u64 = u32::MAX as u64;

// A command of this name that takes nothing yet.
fn plain<'a>(alloc: Global, name: &'a str) -> Result<Command<'a>, Memory>
    ensures { MakesCommand (new_app name.entry.now) result }
{
    Ok(Command::new(alloc, name))
}

fn check<'a>(alloc: Global) -> Result<Command<'a>, Memory>
    ensures { MakesCommand check_app result }
{
    let command = with_argument(plain(alloc, "check"), text(alloc, "program"));
    with_argument(command, optional_text(alloc, "config"))
}

// A command of this name on a program and its inputs.
fn command_on_inputs<'a>(alloc: Global, name: &'a str) -> Result<Command<'a>, Memory>
    ensures { MakesCommand (fed_app name.entry.now) result }
{
    let command = with_argument(plain(alloc, name), text(alloc, "program"));
    with_argument(command, text(alloc, "inputs"))
}

fn emit<'a>(alloc: Global) -> Result<Command<'a>, Memory>
    ensures { MakesCommand emit_app result }
{
    let command = with_argument(plain(alloc, "emit"), text(alloc, "program"));
    let command = with_argument(command, text(alloc, "config"));
    let command = with_argument(command, text(alloc, "node"));
    with_argument(command, flag(alloc, "header"))
}

// A command of this name on a program, its inputs and a schedule.
fn command_on_schedule<'a>(alloc: Global, name: &'a str) -> Result<Command<'a>, Memory>
    ensures { MakesCommand (scheduled_app name.entry.now) result }
{
    with_argument(command_on_inputs(alloc, name), text(alloc, "schedule"))
}

fn meaning<'a>(alloc: Global) -> Result<Command<'a>, Memory>
    ensures { MakesCommand meaning_app result }
{
    command_on_inputs(alloc, "meaning")
}

fn run<'a>(alloc: Global) -> Result<Command<'a>, Memory>
    ensures { MakesCommand run_app result }
{
    with_argument(
        command_on_schedule(alloc, "run"),
        optional_text(alloc, "config"),
    )
}

fn plan<'a>(alloc: Global) -> Result<Command<'a>, Memory>
    ensures { MakesCommand plan_app result }
{
    let command = with_argument(plain(alloc, "plan"), text(alloc, "config"));
    with_argument(command, number(alloc, "horizon", GREATEST_TIME))
}

// A command of this name on a program, its inputs and a setup.
fn command_on_setup<'a>(alloc: Global, name: &'a str) -> Result<Command<'a>, Memory>
    ensures { MakesCommand (placed_app name.entry.now) result }
{
    with_argument(command_on_inputs(alloc, name), text(alloc, "config"))
}

fn sim<'a>(alloc: Global) -> Result<Command<'a>, Memory>
    ensures { MakesCommand sim_app result }
{
    let command = with_argument(
        command_on_setup(alloc, "sim"),
        needed_number(alloc, "seed", u64::MAX),
    );
    with_argument(command, needed_number(alloc, "horizon", GREATEST_TIME))
}

fn schedule<'a>(alloc: Global) -> Result<Command<'a>, Memory>
    ensures { MakesCommand schedule_app result }
{
    let command = with_argument(
        command_on_setup(alloc, "schedule"),
        needed_number(alloc, "seed", u64::MAX),
    );
    let command = with_argument(command, needed_number(alloc, "horizon", GREATEST_TIME));
    let command = with_argument(command, number(alloc, "jitter", WHOLE_JITTER));
    with_argument(command, number(alloc, "loss", WHOLE_LOSS))
}

fn big<'a>(alloc: Global) -> Result<Command<'a>, Memory>
    ensures { MakesCommand big_app result }
{
    with_argument(
        plain(alloc, "big"),
        count_argument(alloc, "instants", MOST_ROWS as u64),
    )
}

// A command of this name on a program, its inputs, a schedule and one file more.
fn command_on_file<'a>(alloc: Global, name: &'a str, file: &'a str) -> Result<Command<'a>, Memory>
    ensures { MakesCommand (replayed_app name.entry.now file.entry.now) result }
{
    with_argument(command_on_schedule(alloc, name), text(alloc, file))
}

fn watch<'a>(alloc: Global) -> Result<Command<'a>, Memory>
    ensures { MakesCommand watch_app result }
{
    let command = command_on_file(alloc, "watch", "observer");
    with_argument(command, optional_text(alloc, "config"))
}

fn audit<'a>(alloc: Global) -> Result<Command<'a>, Memory>
    ensures { MakesCommand audit_app result }
{
    command_on_file(alloc, "audit", "config")
}

fn trace<'a>(alloc: Global) -> Result<Command<'a>, Memory>
    ensures { MakesCommand trace_app result }
{
    let command = with_argument(
        command_on_file(alloc, "trace", "config"),
        name(alloc, "node"),
    );
    let command = with_argument(command, number(alloc, "from", GREATEST_TIME));
    with_argument(command, number(alloc, "to", GREATEST_TIME))
}

// The command with options for the first and the last of what is drawn, up to a bound, and for the width.
fn with_window<'a>(
    alloc: Global,
    command: Result<Command<'a>, Memory>,
    most: u64,
) -> Result<Command<'a>, Memory>
    ensures { (app : App) → MakesCommand app command.entry → MakesCommand (with_window most app) result }
{
    let command = with_argument(command, number(alloc, "from", most));
    let command = with_argument(command, number(alloc, "to", most));
    with_argument(
        command,
        ranged_number(alloc, "width", LEAST_WIDTH, MOST_WIDTH),
    )
}

fn draw<'a>(alloc: Global) -> Result<Command<'a>, Memory>
    ensures { MakesCommand draw_app result }
{
    let command = command_on_file(alloc, "draw", "config");
    let command = with_argument(command, name(alloc, "node"));
    with_window(alloc, command, GREATEST_TIME)
}

fn plot<'a>(alloc: Global) -> Result<Command<'a>, Memory>
    ensures { MakesCommand plot_app result }
{
    let command = with_argument(command_on_inputs(alloc, "plot"), both_texts(alloc, "along"));
    let command = with_argument(command, name(alloc, "observer"));
    with_window(alloc, command, LAST_INSTANT)
}

// A program's command of this name, which needs one below it.
fn bare<'a>(alloc: Global, name: &'a str) -> Result<Command<'a>, Memory>
    ensures { MakesCommand (bare_app name.entry.now) result }
{
    let command = Command::new(alloc, name)
        .no_binary_name(true)
        .disable_help_flag(true)
        .disable_help_subcommand(true)
        .subcommand_required(true);
    Ok(command)
}

// The command with those on the files of a program.
fn with_programs<'a>(
    alloc: Global,
    command: Result<Command<'a>, Memory>,
) -> Result<Command<'a>, Memory>
    ensures { (app : App) → MakesCommand app command.entry → MakesCommand (with_programs app) result }
{
    let command = with_command(command, check(alloc));
    let command = with_command(command, meaning(alloc));
    let command = with_command(command, run(alloc));
    with_command(command, plan(alloc))
}

// The command with those that draw a schedule.
fn with_drawings<'a>(
    alloc: Global,
    command: Result<Command<'a>, Memory>,
) -> Result<Command<'a>, Memory>
    ensures { (app : App) → MakesCommand app command.entry → MakesCommand (with_drawings app) result }
{
    let command = with_command(command, sim(alloc));
    with_command(command, big(alloc))
}

// The command with those that look at a run.
fn with_views<'a>(
    alloc: Global,
    command: Result<Command<'a>, Memory>,
) -> Result<Command<'a>, Memory>
    ensures { (app : App) → MakesCommand app command.entry → MakesCommand (with_views app) result }
{
    let command = with_command(command, watch(alloc));
    let command = with_command(command, audit(alloc));
    with_command(command, trace(alloc))
}

/// The command of `lttac`, with those below it.
pub fn second_program<'a>(alloc: Global) -> Result<Command<'a>, Memory>
    ensures { MakesCommand lttac_app result }
{
    let command = with_command(bare(alloc, "lttac"), emit(alloc));
    let command = with_command(command, schedule(alloc));
    let command = with_command(command, draw(alloc));
    with_command(command, plot(alloc))
}

/// The command of `ltta`, with those below it.
pub fn program<'a>(alloc: Global) -> Result<Command<'a>, Memory>
    ensures { MakesCommand program_app result }
{
    let command = with_programs(alloc, bare(alloc, "ltta"));
    let command = with_drawings(alloc, command);
    with_views(alloc, command)
}
