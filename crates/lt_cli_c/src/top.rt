// The top call of the second program.
ghost use Rattle.lt_io.specs.Counts.{MayFail};
ghost use Rattle.lt_words.specs.Lttac.{HasLttacRanges, lttac_said_of};
ghost use Rattle.lt_cli_c.specs.LttacClauses.{LttacPerformsOn};
ghost use Rattle.lt_cli_c.specs.LttacAsked.{AnswersLttac, LttacAskedOn, LttacObeysOn};

use crate::commands::draw::draw;
use crate::commands::emit::emit;
use crate::commands::plot::plot;
use crate::commands::schedule::schedule;
use lt_base::{List, Or};
use lt_cli::{finish, refuse};
use lt_drawing::DrawView;
use lt_io::{Files, Sink};
use lt_plotting::PlotView;
use lt_text_answers::{Refusal, Status};
use lt_words::{LttacCommand, read_lttac_words};
use std::alloc::Global;

/// Does what the words of `lttac` say: reads the files that they name, and writes a text to `out` or a refusal's line to `err`.
pub fn lttac<F: Files, O: Sink, E: Sink>(
    alloc: Global,
    words: &[String],
    files: &mut F,
    out: &mut O,
    err: &mut E,
) -> Status
    requires files { MayFail (F.state files.old).faults }
    requires out { MayFail (O.state out.old).faults }
    requires err { MayFail (E.state err.old).faults }
    ensures { LttacPerformsOn F.state O.state E.state words.now (files.old, out.old, err.old) (files.new, out.new, err.new) result }
{
    perform(alloc, words, files, out, err)
}

fn perform<F: Files, O: Sink, E: Sink>(
    alloc: Global,
    words: &[String],
    files: &mut F,
    out: &mut O,
    err: &mut E,
) -> Status
    requires files { MayFail (F.state files.old).faults }
    requires out { MayFail (O.state out.old).faults }
    requires err { MayFail (E.state err.old).faults }
    ensures { LttacAskedOn F.state O.state E.state words.now (files.old, out.old, err.old) (files.new, out.new, err.new) result }
{
    match read_lttac_words(alloc, words) {
        Ok(Some(command)) => obey(alloc, command, files, out, err),
        Ok(None) => refuse(alloc, err, Refusal::LttacWords),
        Err(_) => Status::Memory,
    }
}

// Does what a command says.
fn obey<F: Files, O: Sink, E: Sink>(
    alloc: Global,
    command: LttacCommand<'_>,
    files: &mut F,
    out: &mut O,
    err: &mut E,
) -> Status
    requires files { MayFail (F.state files.old).faults }
    requires out { MayFail (O.state out.old).faults }
    requires err { MayFail (E.state err.old).faults }
    requires ranges { HasLttacRanges command }
    ensures { LttacObeysOn F.state O.state E.state command.entry (files.old, out.old, err.old) (files.new, out.new, err.new) result }
{
    let answer = answer(alloc, files, command);
    finish(alloc, out, err, answer)
}

// What a command answers: its text, or why it is refused.
fn answer<F: Files>(
    alloc: Global,
    files: &mut F,
    command: LttacCommand<'_>,
) -> Result<List<u8>, Or<Refusal>>
    requires files { MayFail (F.state files.old).faults }
    requires ranges { HasLttacRanges command }
    ensures { AnswersLttac (lttac_said_of command.entry) (F.state files.old) (F.state files.new) result }
{
    match command {
        LttacCommand::Emit {
            header,
            program,
            config,
            node,
        } => emit(alloc, files, header, program, config, node),
        LttacCommand::Schedule {
            program,
            inputs,
            config,
            seed,
            horizon,
            jitter,
            loss,
        } => {
            let lost = loss.unwrap_or(0);
            schedule(
                alloc, files, program, inputs, config, lost, seed, horizon, jitter,
            )
        }
        LttacCommand::Draw {
            program,
            inputs,
            schedule,
            config,
            node,
            from,
            to,
            width,
        } => {
            let view = DrawView { from, to, width };
            draw(alloc, files, program, inputs, schedule, config, node, view)
        }
        LttacCommand::Plot {
            program,
            inputs,
            along,
            observer,
            from,
            to,
            width,
        } => {
            let view = PlotView { from, to, width };
            plot(alloc, files, program, inputs, along, observer, view)
        }
    }
}
