// Each object of the outside through its trait, and each generic function at a concrete object.
ghost use Rattle.std.specs.Prelude.{◌≡◌, ◌<◌, ◌-◌, ◌^◌, ◌∷◌, [], map, IfOk};
ghost use Rattle.lt_io.specs.Counts.{MayFail};
ghost use Rattle.lt_base.specs.Value.{ty_of};

use crate::fixtures::{add_file, failing_calls};
use crate::texts::{tell, tell_bytes};
use lt_base::{List, Memory, Or, Ty, Value};
use lt_io::{
    Fabric, Failed, Files, FlipFabric, LinkErr, MemFabric, MemFile, MemFiles, MemSink, RealFiles,
    RealSink, RepeatFiles, Sink, SinkErr, TightFabric, Whole, read_file, write_all,
};
use std::alloc::Global;
use std::io::Cursor;
use std::path::PathBuf;
use std::test::Fail;
use std::{env, fs};

// Tells what a reading gives, in words.
fn tell_outcome<F: Files>(
    alloc: Global,
    line: &mut String,
    files: &mut F,
    name: &str,
    limit: usize,
) -> Result<(), Memory>
    requires count { MayFail (F.state files.old).faults }
    requires limit { limit < 2 ^ 63 }
{
    match read_file(alloc, files, name, limit) {
        Ok(Whole::Bytes(bytes)) => tell_bytes(line, bytes.as_slice()),
        Ok(Whole::TooLong) => tell_bytes(line, b"too long"),
        Err(Or::Fault(Failed)) => tell_bytes(line, b"failed"),
        Err(Or::Memory) => Err(Memory),
    }
}

fn call_of(text: &str) -> Result<u64, Memory>
    ensures { IfOk result (λ call. call < 2 ^ 32) }
{
    match text.parse::<u32>() {
        Ok(call) => Ok(u64::from(call)),
        Err(_) => Err(Memory),
    }
}

// Two files of one name.
fn two_files(alloc: Global) -> Result<List<MemFile>, Memory> {
    let mut named = List::new(alloc);
    add_file(alloc, &mut named, "a", b"first")?;
    add_file(alloc, &mut named, "a", b"second")?;
    Ok(named)
}

/// Tells how a file is read of which a call fails, with a limit: the words are the number of the call, counted from 1, and the limit.
/// The calls are an open, a read of all bytes, and a read at the end. With the word `repeated`, a file that repeats a line is read.
pub fn tell_file(alloc: Global, line: &mut String, text: &str) -> Result<(), Memory> {
    let (call, limit) = text.split_once(' ').unwrap_or((text, ""));
    if text == "repeated" {
        return tell_repeated(alloc, line);
    }
    tell_limited(alloc, line, call_of(call)?, call_of(limit)?)
}

fn tell_limited(alloc: Global, line: &mut String, call: u64, limit: u64) -> Result<(), Memory>
    requires call { call < 2 ^ 32 }
    requires limit { limit < 2 ^ 32 }
{
    let files = two_files(alloc)?;
    let mut files = MemFiles::new(files, failing_calls(alloc, call)?);
    tell_outcome(alloc, line, &mut files, "a", limit as usize)
}

fn tell_repeated(alloc: Global, line: &mut String) -> Result<(), Memory> {
    let mut files = RepeatFiles::new(List::from_slice(alloc, b"on\n")?, 4);
    tell_outcome(alloc, line, &mut files, "lines", 12)
}

// Writes two texts, and answers how the second ended.
fn write_two<S: Sink>(sink: &mut S, first: &[u8], second: &[u8]) -> Result<(), SinkErr>
    requires { MayFail (S.state sink.old).faults }
{
    write_all(sink, first)?;
    write_all(sink, second)
}

/// Tells how a sink ends of which the call of this number fails, and what it holds; `room` is a stream with room for six bytes.
pub fn tell_sink(alloc: Global, line: &mut String, text: &str) -> Result<(), Memory> {
    if text == "room" {
        return tell_room(line);
    }
    let mut sink = MemSink::new(alloc, failing_calls(alloc, call_of(text)?)?);
    tell(line, write_two(&mut sink, b"one ", b"two"))?;
    tell_bytes(line, sink.into_bytes().as_slice())
}

// It takes a front, and then nothing.
fn tell_room(line: &mut String) -> Result<(), Memory> {
    let mut room = [0u8; 6];
    tell(line, write_into(&mut room))?;
    tell_bytes(line, room.as_slice())
}

fn write_into(room: &mut [u8; 6]) -> Result<(), SinkErr> {
    let mut sink = RealSink::new(Cursor::new(&mut room[..]));
    write_two(&mut sink, b"one ", b"two")
}

fn path_of(rt: HostRuntime, name: &str) -> Result<PathBuf, Fail> {
    let mut path = env::temp_dir(&rt)?;
    path.push(name)?;
    Ok(path)
}

fn write_at(rt: HostRuntime, path: &PathBuf, first: &[u8], second: &[u8]) -> Result<(), Fail> {
    let mut sink = RealSink::new(fs::create(&rt, path)?);
    write_two(&mut sink, first, second)?;
    Ok(())
}

fn read_at(rt: HostRuntime, path: &PathBuf) -> Result<String, Fail> {
    let name = path.to_str().ok_or("no text")?;
    let mut files = RealFiles::new(rt);
    let mut line = String::new(rt.alloc());
    tell_outcome(rt.alloc(), &mut line, &mut files, name, 7)?;
    Ok(line)
}

// Whether this is read of a file.
fn is_read(rt: HostRuntime, path: &PathBuf, wanted: &str) -> Result<bool, Fail> {
    let read = read_at(rt, path)?;
    Ok(read.as_str() == wanted)
}

// Whether the one is read of the first file, and the other of the second.
fn are_read(rt: HostRuntime, paths: [&PathBuf; 2], wanted: [&str; 2]) -> Result<bool, Fail> {
    let first = is_read(rt, paths[0], wanted[0])?;
    let second = is_read(rt, paths[1], wanted[1])?;
    Ok(first && second)
}

// Whether two files that are written are each read.
fn are_written(rt: HostRuntime, paths: [&PathBuf; 2]) -> Result<bool, Fail> {
    write_at(rt, paths[0], b"one ", b"two")?;
    write_at(rt, paths[1], b"two ", b"one")?;
    are_read(rt, paths, [" \"one two\"", " \"two one\""])
}

// Whether the first one alone is missing once it is removed.
fn is_missing(rt: HostRuntime, paths: [&PathBuf; 2]) -> Result<bool, Fail> {
    fs::remove_file(&rt, paths[0])?;
    let is_missing = are_read(rt, paths, [" \"failed\"", " \"two one\""])?;
    fs::remove_file(&rt, paths[1])?;
    Ok(is_missing)
}

fn are_written_and_read(rt: HostRuntime, paths: [&PathBuf; 2]) -> Result<bool, Fail> {
    Ok(are_written(rt, paths)? && is_missing(rt, paths)?)
}

#[test]
fn real_files_are_written_and_read(rt: HostRuntime) -> Result<(), Fail> {
    let path = path_of(rt, "lt_io_written")?;
    let other = path_of(rt, "lt_io_written_too")?;
    let holds = are_written_and_read(rt, [&path, &other])?;
    assert!(rt; holds);
    Ok(())
}

type Pair = [Value; 2];

// Sends two messages, and then delivers them.
fn carry_two<W: Fabric>(
    alloc: Global,
    fabric: &mut W,
    first: Pair,
    second: Pair,
) -> Result<[(Pair, bool); 2], LinkErr>
    requires count { MayFail (W.state fabric.old).faults }
    requires empty { (W.state fabric.old).kinds ≡ [] }
    requires first { map ty_of first ≡ Ty.Int ∷ Ty.Bool ∷ [] }
    requires second { map ty_of second ≡ Ty.Int ∷ Ty.Bool ∷ [] }
{
    let kinds = [
        List::new(alloc),
        List::from_slice(alloc, &[Ty::Int, Ty::Bool])?,
    ];
    let opened = fabric.open(&kinds);
    drop(kinds);
    opened?;
    fabric.send(1, &first, true)?;
    fabric.send(1, &second, false)?;
    let mut one = [Value::Int(0); 2];
    let mut two = [Value::Int(0); 2];
    let bits = [fabric.deliver(1, &mut one)?, fabric.deliver(1, &mut two)?];
    Ok([(one, bits[0]), (two, bits[1])])
}

const FIRST: Pair = [Value::Int(5), Value::Bool(true)];

const SECOND: Pair = [Value::Int(i64::MAX), Value::Bool(false)];

/// Tells what a fabric carries of which the call of this number fails; `tight` is one that finds no memory for the second message,
/// and `flip` one that changes what it carries.
pub fn tell_fabric(alloc: Global, line: &mut String, text: &str) -> Result<(), Memory> {
    if text == "tight" {
        let mut fabric = TightFabric::new(alloc, 2);
        return tell_carried(alloc, line, &mut fabric);
    }
    if text == "flip" {
        let mut fabric = FlipFabric::new(alloc);
        return tell_carried(alloc, line, &mut fabric);
    }
    let mut fabric = MemFabric::new(alloc, failing_calls(alloc, call_of(text)?)?);
    tell_carried(alloc, line, &mut fabric)
}

fn tell_carried<W: Fabric>(alloc: Global, line: &mut String, fabric: &mut W) -> Result<(), Memory>
    requires count { MayFail (W.state fabric.old).faults }
    requires empty { (W.state fabric.old).kinds ≡ [] }
{
    tell(line, carry_two(alloc, fabric, FIRST, SECOND))
}
