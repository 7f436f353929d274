// What a command gives, as its text, and its fault as a refusal.
ghost use Rattle.lt_text_lines.specs.PlanText.{plan_of};
ghost use Rattle.lt_text_answers.specs.Replies.{IsTextBy, IsTextOf, checked_text, printed_text, summarized_text, watch_refusal};
ghost use Rattle.lt_text_answers.specs.Texts.{audited_text, watched_text};

use crate::Refusal;
use crate::judgement::{audited_text, watched_text};
use crate::refusal::watch_refusal;
use lt_base::{List, Or};
use lt_config::Config;
use lt_evaluate::Outputs;
use lt_front::Examined;
use lt_inspect::Audited;
use lt_load::CommandFault;
use lt_print::print;
use lt_text_lines::summary_text;
use lt_watch::{WatchFault, Watched};
use std::alloc::Global;
use std::mem::forget;

/// The text of `check` without a setup: the canonical text of a program, or why it is refused.
pub fn check_text(printed: Result<List<u8>, Or<CommandFault>>) -> Result<List<u8>, Or<Refusal>>
    ensures { IsTextOf (λ text. text) printed result }
{
    command_text(printed)
}

/// The text of `trace`: the schedule of the events that are selected, or why the command is refused.
pub fn trace_text(schedule: Result<List<u8>, Or<CommandFault>>) -> Result<List<u8>, Or<Refusal>>
    ensures { IsTextOf (λ text. text) schedule result }
{
    command_text(schedule)
}

/// The text that a command's last step answers itself, or why the command is refused.
pub fn command_text(answer: Result<List<u8>, Or<CommandFault>>) -> Result<List<u8>, Or<Refusal>>
    ensures { IsTextOf (λ text. text) answer result }
{
    match answer {
        Ok(text) => Ok(text),
        Err(e) => Err(e.map(Refusal::Command)),
    }
}

/// The text of `check` with a setup: the canonical text of the program that it fits, or why either is refused.
pub fn setup_check_text(
    alloc: Global,
    found: Result<Examined, Or<CommandFault>>,
) -> Result<List<u8>, Or<Refusal>>
    ensures { IsTextOf checked_text found result }
{
    match found {
        Ok(checked) => {
            let text = print(alloc, &checked.tree)?;
            // The call is nearly over: to take a large tree and its program apart would be a sixth of its time.
            forget(checked);
            Ok(text)
        }
        Err(e) => Err(e.map(Refusal::Command)),
    }
}

/// The text of `meaning` and of `run`: a line of cells for each output, or why the command is refused.
pub fn outputs_text(
    alloc: Global,
    found: Result<Outputs, Or<CommandFault>>,
) -> Result<List<u8>, Or<Refusal>>
    ensures { IsTextOf printed_text found result }
{
    match found {
        Ok(outputs) => Ok(lt_text_lines::outputs_text(alloc, outputs.names, outputs.cells)?),
        Err(e) => Err(e.map(Refusal::Command)),
    }
}

/// The text of `plan`: the plan of a setup, or why the setup is refused.
pub fn plan_text(
    alloc: Global,
    found: Result<Config, Or<CommandFault>>,
    horizon: Option<u64>,
) -> Result<List<u8>, Or<Refusal>>
    ensures { IsTextOf (λ setup. plan_of setup horizon) found result }
{
    match found {
        Ok(setup) => Ok(lt_text_lines::plan_text(alloc, &setup, horizon)?),
        Err(e) => Err(e.map(Refusal::Command)),
    }
}

/// The text of `big`: a summary of the outputs, or why the run is refused.
pub fn big_text(
    alloc: Global,
    instants: u32,
    found: Result<Outputs, Or<CommandFault>>,
) -> Result<List<u8>, Or<Refusal>>
    ensures { IsTextOf (summarized_text instants) found result }
{
    match found {
        Ok(outputs) => Ok(summary_text(alloc, instants, &outputs.names, &outputs.cells)?),
        Err(e) => Err(e.map(Refusal::Command)),
    }
}

/// The text of `watch`: what an observer makes of a run, or why the run or the observer is refused.
pub fn watch_text(
    alloc: Global,
    watched: Result<Watched, Or<WatchFault>>,
) -> Result<List<u8>, Or<Refusal>>
    ensures { IsTextBy watch_refusal watched_text watched result }
{
    match watched {
        Ok(watched) => Ok(watched_text(alloc, watched)?),
        Err(e) => Err(e.map(watch_refusal)),
    }
}

/// The text that the last step of a command with an observer answers itself, or why the command or the observer is refused.
pub fn observed_text(answer: Result<List<u8>, Or<WatchFault>>) -> Result<List<u8>, Or<Refusal>>
    ensures { IsTextBy watch_refusal (λ text. text) answer result }
{
    match answer {
        Ok(text) => Ok(text),
        Err(e) => Err(e.map(watch_refusal)),
    }
}

/// The text of `audit`: the first message too few or too many, or that there is none, or why the command is refused.
pub fn audit_text(
    alloc: Global,
    audited: Result<Audited, Or<CommandFault>>,
) -> Result<List<u8>, Or<Refusal>>
    ensures { IsTextOf audited_text audited result }
{
    match audited {
        Ok(audited) => Ok(audited_text(alloc, &audited)?),
        Err(e) => Err(e.map(Refusal::Command)),
    }
}
