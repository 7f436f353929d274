// The top call.
ghost use Rattle.std.specs.Prelude.{◌≡◌, ◌++◌, ◌∷◌, []};
ghost use Rattle.lt_io.specs.Counts.{MayFail};
ghost use Rattle.lt_cli.specs.Clauses.{PerformsOn};
ghost use Rattle.lt_words.specs.Ranges.{HasRanges};
ghost use Rattle.lt_cli.specs.Asked.{AskedOn, Finishes, IsCutShort, ObeysOn};
ghost use Rattle.lt_text_answers.specs.Texts.{refusal_status, refusal_line};
ghost use Rattle.lt_cli.specs.Written.{Written, written_status};

use crate::commands::audit::audit;
use crate::commands::big::big;
use crate::commands::check::check;
use crate::commands::meaning::meaning;
use crate::commands::plan::plan;
use crate::commands::run::run;
use crate::commands::sim::sim;
use crate::commands::trace::trace;
use crate::commands::watch::watch;
use crate::printer::Printer;
use lt_base::{List, Or};
use lt_io::{Fabric, Files, Sink, SinkErr};
use lt_text_answers::{Refusal, Status};
use lt_words::{Command, read_words};
use std::alloc::Global;

/// Does what the words say: reads the files that they name, and writes a text to `out` or a refusal's line to `err`.
/// A run, watched or not, or that of the large input, opens the channels of its nodes on the fabric, which is empty before, and sends
/// its messages there, once all that it is of is loaded. No other command touches it.
pub fn ltta<F: Files, W: Fabric, O: Sink, E: Sink>(
    alloc: Global,
    words: &[String],
    files: &mut F,
    fabric: &mut W,
    out: &mut O,
    err: &mut E,
) -> Status
    requires files { MayFail (F.state files.old).faults }
    requires fabric { MayFail (W.state fabric.old).faults }
    requires empty { (W.state fabric.old).kinds ≡ [] }
    requires out { MayFail (O.state out.old).faults }
    requires err { MayFail (E.state err.old).faults }
    ensures { PerformsOn F.state W.state O.state E.state words.now (files.old, fabric.old, out.old, err.old) (files.new, fabric.new, out.new, err.new) result }
{
    perform(alloc, words, files, fabric, out, err)
}

fn perform<F: Files, W: Fabric, O: Sink, E: Sink>(
    alloc: Global,
    words: &[String],
    files: &mut F,
    fabric: &mut W,
    out: &mut O,
    err: &mut E,
) -> Status
    requires files { MayFail (F.state files.old).faults }
    requires fabric { MayFail (W.state fabric.old).faults }
    requires empty { (W.state fabric.old).kinds ≡ [] }
    requires out { MayFail (O.state out.old).faults }
    requires err { MayFail (E.state err.old).faults }
    ensures { AskedOn F.state W.state O.state E.state words.now (files.old, fabric.old, out.old, err.old) (files.new, fabric.new, out.new, err.new) result }
{
    match read_words(alloc, words) {
        Ok(Some(command)) => obey(alloc, command, files, fabric, out, err),
        Ok(None) => refuse(alloc, err, Refusal::Words),
        Err(_) => Status::Memory,
    }
}

// Does what a command says.
fn obey<F: Files, W: Fabric, O: Sink, E: Sink>(
    alloc: Global,
    command: Command<'_>,
    files: &mut F,
    fabric: &mut W,
    out: &mut O,
    err: &mut E,
) -> Status
    requires files { MayFail (F.state files.old).faults }
    requires fabric { MayFail (W.state fabric.old).faults }
    requires empty { (W.state fabric.old).kinds ≡ [] }
    requires out { MayFail (O.state out.old).faults }
    requires err { MayFail (E.state err.old).faults }
    requires ranges { HasRanges command }
    ensures { ObeysOn F.state W.state O.state E.state command.entry (files.old, fabric.old, out.old, err.old) (files.new, fabric.new, out.new, err.new) result }
{
    match command {
        Command::Check { program, config } => {
            let answer = check(alloc, files, program, config);
            finish(alloc, out, err, answer)
        }
        Command::Meaning { program, inputs } => {
            let answer = meaning(alloc, files, program, inputs);
            finish(alloc, out, err, answer)
        }
        Command::Run {
            program,
            inputs,
            schedule,
            config,
        } => {
            let answer = run(alloc, files, fabric, program, inputs, schedule, config);
            finish(alloc, out, err, answer)
        }
        Command::Plan { config, horizon } => {
            let answer = plan(alloc, files, config, horizon);
            finish(alloc, out, err, answer)
        }
        Command::Sim {
            program,
            inputs,
            config,
            seed,
            horizon,
        } => sim(
            alloc, files, out, err, program, inputs, config, seed, horizon,
        ),
        Command::Big { instants } => {
            let answer = big(alloc, fabric, instants);
            finish(alloc, out, err, answer)
        }
        Command::Watch {
            program,
            inputs,
            schedule,
            observer,
            config,
        } => {
            let answer = watch(
                alloc, files, fabric, program, inputs, schedule, observer, config,
            );
            finish(alloc, out, err, answer)
        }
        Command::Audit {
            program,
            inputs,
            schedule,
            config,
        } => {
            let answer = audit(alloc, files, program, inputs, schedule, config);
            finish(alloc, out, err, answer)
        }
        Command::Trace {
            program,
            inputs,
            schedule,
            config,
            node,
            from,
            to,
        } => {
            let answer = trace(
                alloc, files, program, inputs, schedule, config, node, from, to,
            );
            finish(alloc, out, err, answer)
        }
    }
}

/// Prints an answer's text on `out`, or the line of its refusal on `err`.
pub fn finish<O: Printer, E: Printer>(
    alloc: Global,
    out: &mut O,
    err: &mut E,
    answer: Result<List<u8>, Or<Refusal>>,
) -> Status
    requires out { MayFail (O.state out.old).faults }
    requires err { MayFail (E.state err.old).faults }
    ensures finishes { Finishes answer (O.state out.old) (O.state out.new) (E.state err.old) (E.state err.new) result }
    ensures short { result ≡ Status.Memory → IsCutShort answer O.short E.short }
{
    match answer {
        Ok(text) => {
            let printed = out.print_text(&text);
            written_status(Status::Ok, printed)
        }
        Err(Or::Fault(refusal)) => refuse(alloc, err, refusal),
        Err(Or::Memory) => Status::Memory,
    }
}

// How a call ends that was to end so, by how its text was printed.
fn written_status(done: Status, printed: Result<(), SinkErr>) -> Status
    ensures { result ≡ written_status done printed }
{
    match printed {
        Ok(()) => done,
        Err(SinkErr::Failed) => Status::Write,
        Err(SinkErr::Memory) => Status::Memory,
    }
}

/// Prints a refusal's line on `err`.
pub fn refuse<E: Printer>(alloc: Global, err: &mut E, refusal: Refusal) -> Status
    requires { MayFail (E.state err.old).faults }
    ensures written { Written (refusal_status refusal) (refusal_line refusal ++ 10 ∷ []) (E.state err.old) (E.state err.new) result }
    ensures short { result ≡ Status.Memory → E.short }
{
    let printed = err.print_line(alloc, &refusal);
    let status = refusal.status();
    drop(refusal);
    written_status(status, printed)
}
