// Words, and the commands that they say.

use crate::texts::{tell, tell_word};
use lt_base::Memory;
use lt_words::{Command, read_words};
use std::alloc::Global;

fn words_of(alloc: Global, line: &str) -> Result<Vec<String>, Memory> {
    let mut words = Vec::new(alloc);
    for word in line.split(' ') {
        words.push(String::from_str(alloc, word)?)?;
    }
    Ok(words)
}

// The word that says what is done.
fn name_of(command: &Command) -> &'static str {
    match command {
        Command::Check { .. } => "check",
        Command::Meaning { .. } => "meaning",
        Command::Run { .. } => "run",
        Command::Plan { .. } => "plan",
        Command::Sim { .. } => "sim",
        Command::Big { .. } => "big",
        Command::Watch { .. } => "watch",
        Command::Audit { .. } => "audit",
        Command::Trace { .. } => "trace",
    }
}

// The texts of a command, in order and empty where one is left out.
fn texts_of<'a>(command: &Command<'a>) -> [&'a str; 5] {
    match command {
        Command::Check { program, config } => [*program, config.unwrap_or(""), "", "", ""],
        Command::Meaning { program, inputs } => [*program, *inputs, "", "", ""],
        Command::Run {
            program,
            inputs,
            schedule,
            config,
        } => [*program, *inputs, *schedule, config.unwrap_or(""), ""],
        Command::Plan { config, .. } => [*config, "", "", "", ""],
        Command::Sim {
            program,
            inputs,
            config,
            ..
        } => [*program, *inputs, *config, "", ""],
        _ => texts_of_views(command),
    }
}

// Those of a command that looks at a run.
fn texts_of_views<'a>(command: &Command<'a>) -> [&'a str; 5] {
    match command {
        Command::Watch {
            program,
            inputs,
            schedule,
            observer,
            config,
        } => [
            *program,
            *inputs,
            *schedule,
            *observer,
            config.unwrap_or(""),
        ],
        Command::Audit {
            program,
            inputs,
            schedule,
            config,
        } => [*program, *inputs, *schedule, *config, ""],
        Command::Trace {
            program,
            inputs,
            schedule,
            config,
            node,
            ..
        } => [*program, *inputs, *schedule, *config, node.unwrap_or("")],
        _ => [""; 5],
    }
}

// The numbers of a command, 0 where one is left out.
fn numbers_of(command: &Command) -> [u64; 2] {
    match command {
        Command::Plan { horizon, .. } => [horizon.unwrap_or(0), 0],
        Command::Sim { seed, horizon, .. } => [*seed, *horizon],
        Command::Big { instants } => [*instants as u64, 0],
        Command::Trace { from, to, .. } => [*from, *to],
        _ => [0, 0],
    }
}

/// Tells the command that a line of words says.
pub fn tell_command(alloc: Global, line: &mut String, text: &str) -> Result<(), Memory> {
    let words = words_of(alloc, text)?;
    match read_words(alloc, words.as_slice())? {
        Some(command) => tell_said(line, &command),
        None => tell_word(line, "refused"),
    }
}

fn tell_said(line: &mut String, command: &Command) -> Result<(), Memory> {
    tell_word(line, name_of(command))?;
    tell(line, texts_of(command).as_slice())?;
    tell(line, numbers_of(command).as_slice())
}
