// A program and a schedule that are cut off, at each letter, with the line that refuses each front.

use crate::calls::{ACROSS, Texts};
use crate::script::{Cell, ends, plain};
use lt_base::Memory;
use std::alloc::Global;
use std::process::Abort;

// Where those words of the language stand in the program of the two nodes of which no front may stand there.
const WORDS: [(usize, usize); 8] = [
    (0, 4),
    (13, 16),
    (18, 25),
    (30, 33),
    (38, 41),
    (43, 46),
    (58, 61),
    (78, 81),
];

// The place at which a front of that program is refused: that of the word that is cut off, or its end.
fn place_of(length: usize) -> usize {
    for (start, end) in WORDS {
        if start < length && length < end {
            return start;
        }
    }
    length
}

fn program_line(alloc: Global, place: usize) -> Result<String, Memory> {
    let mut line = String::new(alloc);
    write!(line, "syntax 3 Unexpected at byte {place}/")?;
    Ok(line)
}

// A call has to end with this status and this line.
fn is_refused<R: Abort>(
    rt: &R,
    alloc: Global,
    cell: Cell,
    status: u8,
    line: Result<String, Memory>,
) {
    match line {
        Ok(line) => ends(rt, alloc, cell, status, line.as_str()),
        Err(_) => assert!(rt; false, "no memory: {}", cell.line),
    }
}

#[test]
fn fronts_of_a_program_are_refused(rt: HostRuntime) {
    let program = ACROSS.program;
    for length in 0..program.len() {
        let texts = Texts {
            program: program.get(..length).unwrap_or(""),
            ..ACROSS
        };
        let line = program_line(rt.alloc(), place_of(length));
        is_refused(&rt, rt.alloc(), plain("check p", texts), 2, line);
    }
}

// What is wrong with a schedule of events that is cut off in a row, 0 for the header, behind so many of its commas, where the row
// begins or where it is whole.
fn fault_of(row: u32, commas: u32, begins: bool, whole: bool) -> (&'static str, u32, &'static str) {
    if begins && row > 0 {
        ("offence at event", row, ": NoEnd")
    } else if whole {
        ("offence at event", row.saturating_add(1), ": NoEnd")
    } else if commas < 2 && !begins {
        ("5 NotCsv at row", row, "")
    } else if row == 0 {
        ("1 Header at row", row, "")
    } else {
        ("4 UnknownPlace at row", row, "")
    }
}

fn schedule_line(alloc: Global, fault: (&str, u32, &str)) -> Result<String, Memory> {
    let (words, number, more) = fault;
    let mut line = String::new(alloc);
    write!(line, "schedule {words} {number}{more}/")?;
    Ok(line)
}

#[test]
fn fronts_of_a_schedule_are_refused(rt: HostRuntime) {
    let schedule = ACROSS.schedule;
    let (mut row, mut commas, mut begins) = (0u32, 0u32, true);
    for (length, letter) in schedule.bytes().enumerate() {
        let texts = Texts {
            schedule: schedule.get(..length).unwrap_or(""),
            ..ACROSS
        };
        let fault = fault_of(row, commas, begins, letter == b'/');
        let line = schedule_line(rt.alloc(), fault);
        is_refused(&rt, rt.alloc(), plain("run p i s c", texts), 5, line);
        begins = letter == b'/';
        row = row.saturating_add(u32::from(begins));
        commas = if begins {
            0
        } else {
            commas.saturating_add(u32::from(letter == b','))
        };
    }
}
