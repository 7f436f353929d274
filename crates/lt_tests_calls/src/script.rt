// Scripts of calls.
//
// A line `p TEXT`, `i TEXT`, `s TEXT`, `c TEXT` or `o TEXT` says what that file holds from there on; at first the files are
// those of the counter. A line `> WORDS` is a call, and a line below it has the status and what is written: with status 0 to
// `out`, else to `err`; with status 7 `out` has to hold a front of the text, one of at least a byte where it has any. A line
// `x WHOSE FIRST LAST` says what goes wrong in the call, once with each number from the first to the last, and the line below it
// how it ends each time. A line `- WORDS` says what is shown.

use crate::calls::{COUNTING, Ended, Fails, Texts, call};
use crate::texts::bytes;
use lt_base::Memory;
use std::alloc::Global;
use std::process::Abort;

/// A call: its words, its files, and what goes wrong in it, with each of these numbers in its turn.
#[derive(Clone, Copy)]
pub struct Cell<'a> {
    pub line: &'a str,
    pub texts: Texts<'a>,
    pub whose: &'a str,
    pub first: u32,
    pub last: u32,
}

// What stands before the text of a line, where it is no status.
const KEYS: [&str; 8] = ["p", "i", "s", "c", "o", ">", "x", "-"];

/// Every call of the script has to end so.
pub fn holds<R: Abort>(rt: &R, alloc: Global, script: &str) {
    let mut cell = plain("", COUNTING);
    for line in script.lines() {
        let (key, text) = line.split_once(' ').unwrap_or((line, ""));
        match key.parse::<u8>() {
            Ok(status) => ends(rt, alloc, cell, status, text),
            Err(_) => {
                assert!(rt; KEYS.contains(&key), "no line of a script: {line}");
                cell = cell_of(cell, key, text);
            }
        }
    }
}

/// A call in which nothing goes wrong.
pub fn plain<'a>(line: &'a str, texts: Texts<'a>) -> Cell<'a> {
    Cell {
        line,
        texts,
        whose: "",
        first: 0,
        last: 0,
    }
}

// What is called after a line with this key.
fn cell_of<'a>(cell: Cell<'a>, key: &str, text: &'a str) -> Cell<'a> {
    if key == ">" {
        return plain(text, cell.texts);
    }
    if key == "x" {
        return failing(cell, text);
    }
    Cell {
        texts: with_file(cell.texts, key, text),
        ..cell
    }
}

fn with_file<'a>(before: Texts<'a>, key: &str, text: &'a str) -> Texts<'a> {
    let mut texts = before;
    if key == "p" {
        texts.program = text;
    } else if key == "i" {
        texts.inputs = text;
    } else if key == "s" {
        texts.schedule = text;
    } else if key == "c" {
        texts.setup = text;
    } else if key == "o" {
        texts.observer = text;
    }
    texts
}

// The same call, in which this goes wrong: whose calls, and the first and last of their numbers.
fn failing<'a>(cell: Cell<'a>, text: &'a str) -> Cell<'a> {
    let (whose, numbers) = text.split_once(' ').unwrap_or((text, ""));
    let (first, last) = numbers.split_once(' ').unwrap_or((numbers, ""));
    Cell {
        whose,
        first: first.parse().unwrap_or(0),
        last: last.parse().unwrap_or(0),
        ..cell
    }
}

/// The call has to end with this status, with this text written, whichever number goes wrong.
pub fn ends<R: Abort>(rt: &R, alloc: Global, cell: Cell, status: u8, text: &str) {
    for number in cell.first..=cell.last {
        let ended = ends_once(rt, alloc, cell, number, status, text);
        assert!(rt; ended.is_ok(), "no memory: {}", cell.line);
    }
}

fn ends_once<R: Abort>(
    rt: &R,
    alloc: Global,
    cell: Cell,
    number: u32,
    status: u8,
    text: &str,
) -> Result<(), Memory> {
    let wanted = bytes(alloc, text)?;
    let fails = Fails {
        whose: cell.whose,
        number,
    };
    let ended = call(alloc, cell.line, cell.texts, fails)?;
    let holds = is_as_wanted(&ended, status, wanted.as_slice());
    assert!(rt;
        holds,
        "{}, {} {number}: {} and not {status} {text}",
        cell.line,
        cell.whose,
        ended.status.number()
    );
    Ok(())
}

fn is_as_wanted(ended: &Ended, status: u8, wanted: &[u8]) -> bool {
    let out = ended.out.as_slice();
    let err = ended.err.as_slice();
    if ended.status.number() != status {
        return false;
    }
    match status {
        0 => out == wanted && err.is_empty(),
        7 => wanted.starts_with(out) && out.is_empty() == wanted.is_empty() && err.is_empty(),
        _ => out.is_empty() && err == wanted,
    }
}
