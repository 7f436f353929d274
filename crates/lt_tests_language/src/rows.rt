// Lines over long and over broken files, and rows as they read and are written.
ghost use Rattle.std.specs.Prelude.{◌≡◌, ◌<◌, ◌-◌, ◌*◌, ◌^◌, ◌∷◌, [], length, IfOk};
ghost use Rattle.lt_io.specs.Counts.{MayFail};
ghost use Rattle.lt_io.specs.MemFiles.{mem_files_state};
ghost use Rattle.lt_arch.specs.Schedule.{IsEventOf};

use crate::fixtures::{add_file, failing_calls};
use crate::texts::{tell, tell_bytes};
use lt_arch::{Chan, ChanKind, Event, Shape};
use lt_base::{List, Memory, Name};
use lt_io::{Files, MemFiles, RepeatFiles};
use lt_rows::{LineFault, Lines, print_event, read_event, read_header};
use std::alloc::Global;

// The lines of the file `lines`: their number, and how the reading ends.
fn count<F: Files>(alloc: Global, files: &mut F) -> Result<(u32, Option<LineFault>), Memory>
    requires { MayFail (F.state files.old).faults }
{
    let mut lines = Lines::new(alloc)?;
    if files.open("lines").is_err() {
        return Ok((0, Some(LineFault::Read)));
    }
    for row in 0..300_000 {
        match lines.advance(files) {
            Ok(true) => {}
            Ok(false) => return Ok((row, None)),
            Err(fault) => return Ok((row, Some(fault))),
        }
    }
    Ok((300_000, None))
}

// Tells the first line, or nothing.
fn tell_line<F: Files>(alloc: Global, line: &mut String, files: &mut F) -> Result<(), Memory>
    requires { MayFail (F.state files.old).faults }
{
    let mut lines = Lines::new(alloc)?;
    if files.open("lines").is_err() {
        return tell_bytes(line, b"");
    }
    match lines.next(files) {
        Ok(Some(row)) => tell_bytes(line, row),
        _ => tell_bytes(line, b""),
    }
}

// The file `lines`, of which the call of this number fails; 0 for none.
fn in_memory(alloc: Global, bytes: &[u8], call: u64) -> Result<MemFiles, Memory>
    requires { call < 2 ^ 64 - 1 }
    ensures { IfOk result (λ files. (mem_files_state files).faults ≡ 0) }
{
    let mut files = List::new(alloc);
    add_file(alloc, &mut files, "lines", bytes)?;
    Ok(MemFiles::new(files, failing_calls(alloc, call)?))
}

fn add_many(bytes: &mut List<u8>, byte: u8) -> Result<(), Memory> {
    for _turn in 0..100_000u32 {
        bytes.push(byte)?;
    }
    Ok(())
}

// A row, 100,000 of these bytes and another row.
fn far_bytes(alloc: Global, byte: u8) -> Result<List<u8>, Memory> {
    let mut bytes = List::from_slice(alloc, b"first\n")?;
    add_many(&mut bytes, byte)?;
    bytes.extend(b"\nlast\n")?;
    Ok(bytes)
}

fn count_in_memory(
    alloc: Global,
    bytes: &[u8],
    call: u64,
) -> Result<(u32, Option<LineFault>), Memory>
    requires { call < 2 ^ 64 - 1 }
{
    let mut files = in_memory(alloc, bytes, call)?;
    count(alloc, &mut files)
}

// A row, 100,000 of these bytes and another row, of which the call of this number fails: the number of rows that are
// given, and how the reading ends.
fn count_far(alloc: Global, byte: u8, call: u64) -> Result<(u32, Option<LineFault>), Memory>
    requires { call < 2 ^ 64 - 1 }
{
    let bytes = far_bytes(alloc, byte)?;
    count_in_memory(alloc, bytes.as_slice(), call)
}

/// Tells how far a file is read with a row, many bytes, which are the first one of the text, and another row, of which the call of
/// this number fails. The opening is the first call, and each read one more.
pub fn tell_far(alloc: Global, line: &mut String, text: &str) -> Result<(), Memory> {
    let (byte, call) = text.split_once(' ').unwrap_or((text, ""));
    let Ok(call) = call.parse::<u32>() else {
        return Err(Memory);
    };
    if byte == "x" {
        return tell(line, count_far(alloc, b'x', u64::from(call))?);
    }
    if byte == "/" {
        return tell(line, count_far(alloc, b'\n', u64::from(call))?);
    }
    Err(Memory)
}

/// Tells the first line of a file.
pub fn tell_first(alloc: Global, line: &mut String, text: &[u8]) -> Result<(), Memory> {
    let mut files = in_memory(alloc, text, 0)?;
    tell_line(alloc, line, &mut files)
}

// The rows of a file that has these bytes so many times, as `count` counts them.
fn count_same(alloc: Global, bytes: Vec<u8>, times: u64) -> Result<(u32, Option<LineFault>), Memory>
    requires { length bytes.items * times < 2 ^ 63 }
{
    let mut files = RepeatFiles::new(List::of(bytes), times);
    count(alloc, &mut files)
}

/// Tells how far a file of empty lines is read, of 1,073,741,824 bytes or of one more; or a file of 262,145 rows of 4,096 bytes each,
/// of which all but the last end by that limit. An empty line is no row, but the row behind it holds it.
pub fn tell_same(alloc: Global, line: &mut String, text: &str) -> Result<(), Memory> {
    if text == "at" {
        return tell_at(alloc, line);
    }
    if text == "past" {
        return tell_past(alloc, line);
    }
    if text == "rows" {
        return tell_rows(alloc, line);
    }
    Err(Memory)
}

fn tell_at(alloc: Global, line: &mut String) -> Result<(), Memory> {
    let bytes = vec![in alloc; b'\n'; 32_768]?;
    tell(line, count_same(alloc, bytes, 32_768)?)
}

fn tell_past(alloc: Global, line: &mut String) -> Result<(), Memory> {
    let bytes = vec![in alloc; b'\n'; 33_025]?;
    tell(line, count_same(alloc, bytes, 32_513)?)
}

fn tell_rows(alloc: Global, line: &mut String) -> Result<(), Memory> {
    let mut bytes = vec![in alloc; b'x'; 4_095]?;
    bytes.push(b'\n')?;
    tell(line, count_same(alloc, bytes, 262_145)?)
}

fn two_names(alloc: Global) -> Result<List<Name>, Memory>
    ensures { IfOk result (λ names. names ≡ (97 ∷ []) ∷ (98 ∷ []) ∷ []) }
{
    let a = Name::from_str(alloc, "a")?;
    let b = Name::from_str(alloc, "b")?;
    Ok(List::of(vec![in alloc; a, b]?))
}

// Two nodes, with a data channel and an acknowledgement channel each way.
fn two_nodes(alloc: Global) -> Result<Shape, Memory>
    ensures { IfOk result (λ shape. record { nodes : length shape.nodes ≡ 2; channels : length shape.channels ≡ 2 }) }
{
    let data = Chan {
        from: 0,
        to: 1,
        kind: ChanKind::Data,
    };
    let ack = Chan {
        from: 1,
        to: 0,
        kind: ChanKind::Ack,
    };
    let nodes = two_names(alloc)?;
    let channels = List::from_slice(alloc, &[data, ack])?;
    Ok(Shape { nodes, channels })
}

/// Tells the event that a row reads as, and the row that it is written as, or the fault.
pub fn tell_event(alloc: Global, line: &mut String, text: &[u8]) -> Result<(), Memory> {
    match two_nodes(alloc) {
        Ok(shape) => tell_event_of(alloc, line, text, &shape),
        Err(_) => Err(Memory),
    }
}

fn tell_event_of(alloc: Global, line: &mut String, text: &[u8], shape: &Shape) -> Result<(), Memory>
    requires nodes { length shape.now.nodes ≡ 2 }
    requires channels { length shape.now.channels ≡ 2 }
{
    match read_event(text, shape) {
        Ok(event) => tell_read(alloc, line, event, shape),
        Err(fault) => tell(line, fault),
    }
}

fn tell_read(alloc: Global, line: &mut String, event: Event, shape: &Shape) -> Result<(), Memory>
    requires { IsEventOf shape.now event }
{
    tell(line, event)?;
    match print_event(alloc, &event, shape) {
        Ok(row) => tell_bytes(line, row.as_slice()),
        Err(_) => Err(Memory),
    }
}

/// Tells whether a line is a header.
pub fn tell_header(line: &mut String, text: &[u8]) -> Result<(), Memory> {
    tell(line, read_header(text))
}
