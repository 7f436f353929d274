// The answers to questions.

use crate::base::tell_grown;
use crate::config::tell_config;
use crate::front::{tell_fault_line, tell_flat_sizes};
use crate::graph::{tell_circular, tell_ring};
use crate::inputs::tell_inputs;
use crate::io::{tell_fabric, tell_file, tell_sink};
use crate::repeats::spread;
use crate::rows::{tell_event, tell_far, tell_first, tell_header, tell_same};
use crate::texts::bytes;
use crate::tokens::{tell_front, tell_rest};
use crate::trees::tell_parsed;
use crate::words::tell_command;
use lt_base::Memory;
use std::alloc::Global;

/// The line with the answer. An error stands for a question that there is not, for a text that is refused where none is to be, and
/// for want of memory.
pub fn answer(alloc: Global, question: &str) -> Result<String, Memory> {
    let (what, text) = question.split_once(' ').unwrap_or((question, ""));
    let mut line = String::from_str(alloc, "=")?;
    tell_answer(alloc, &mut line, what, text)?;
    Ok(line)
}

fn tell_answer(alloc: Global, line: &mut String, what: &str, text: &str) -> Result<(), Memory> {
    if what == "words" {
        return tell_command(alloc, line, text);
    }
    if what == "file" {
        return tell_file(alloc, line, text);
    }
    if what == "sink" {
        return tell_sink(alloc, line, text);
    }
    if what == "fabric" {
        return tell_fabric(alloc, line, text);
    }
    if what == "far" {
        return tell_far(alloc, line, text);
    }
    if what == "same" {
        return tell_same(alloc, line, text);
    }
    tell_of_data(alloc, line, what, text)
}

fn tell_of_data(alloc: Global, line: &mut String, what: &str, text: &str) -> Result<(), Memory> {
    if what == "grown" {
        return tell_grown(alloc, line, text);
    }
    if what == "circular" {
        return tell_circular(alloc, line, text);
    }
    if what == "ring" {
        return tell_ring(alloc, line);
    }
    if [
        "fault",
        "setup",
        "lead",
        "follow",
        "plan",
        "plan-1000",
        "plain",
    ]
    .contains(&what)
    {
        let text = bytes(alloc, text)?;
        return tell_config(alloc, line, what, text.as_slice());
    }
    if ["inputs", "first", "event", "header"].contains(&what) {
        let text = bytes(alloc, text)?;
        return tell_of_rows(alloc, line, what, text.as_slice());
    }
    let text = spread(alloc, text)?;
    tell_of_text(alloc, line, what, text.as_slice())
}

fn tell_of_rows(alloc: Global, line: &mut String, what: &str, text: &[u8]) -> Result<(), Memory> {
    if what == "inputs" {
        return tell_inputs(alloc, line, text);
    }
    if what == "first" {
        return tell_first(alloc, line, text);
    }
    if what == "event" {
        return tell_event(alloc, line, text);
    }
    tell_header(line, text)
}

// What is told of the text of a token or of a program.
fn tell_of_text(alloc: Global, line: &mut String, what: &str, text: &[u8]) -> Result<(), Memory> {
    if what == "program" {
        return tell_fault_line(alloc, line, text);
    }
    if what == "flat" {
        return tell_flat_sizes(alloc, line, text);
    }
    if what == "rest" {
        return tell_rest(line, text);
    }
    if what == "token" || what == "held" {
        return tell_front(alloc, line, what, text);
    }
    tell_parsed(alloc, line, what, text)
}
