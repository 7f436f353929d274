// A call of `ltta`, or of `lttac`, over objects in memory.
ghost use Rattle.std.specs.Prelude.{◌≡◌, ◌<◌, ◌-◌, ◌^◌, [], All, IfOk};
ghost use Rattle.lt_io.specs.Counts.{MayFail};
ghost use Rattle.lt_io.specs.MemFiles.{mem_files_state};
ghost use Rattle.lt_io.specs.MemSink.{mem_sink_state};

use crate::drift::DriftFabric;
use crate::texts::bytes;
use lt_base::{List, Memory, Name};
use lt_cli::{Status, ltta};
use lt_cli_c::lttac;
use lt_io::{Fabric, FlipFabric, MemFabric, MemFile, MemFiles, MemSink, Sink, TightFabric};
use std::alloc::Global;

/// The contents of the files `p`, `i`, `s`, `c` and `o`, as scripts have them.
#[derive(Clone, Copy)]
pub struct Texts<'a> {
    pub program: &'a str,
    pub inputs: &'a str,
    pub schedule: &'a str,
    pub setup: &'a str,
    pub observer: &'a str,
}

/// The sum of what came before, on three rows, along a schedule with three activations.
pub const COUNTING: Texts = Texts {
    program: "node main(x: int) returns (y: int) let y = 0 fby (y + x); tel",
    inputs: "instant,x/0,1/1,2/2,3/",
    schedule: "time,event,place/0,act,all/4,act,all/8,act,all/12,end,/",
    setup: "protocol = 'backpressure'/period = [1, 1000]/delay = [0, 1000]/[nodes]/all = ['x', 'y']/",
    observer: "true",
};

/// Two nodes that read each other's last value, on three rows, along a schedule in which both execute an instant, send, and one
/// of them executes another. Its last line has no line feed.
pub const ACROSS: Texts = Texts {
    program: "node main(x: int) returns (u: int; v: int) let u = x + (0 fby v); v = 10 + (0 fby u); tel",
    inputs: "instant,x/0,1/1,1/2,1/",
    schedule: "time,event,place/0,act,a/0,act,b/3,ack,a>b/3,ack,b>a/10,act,a/10,act,b/12,data,a>b/12,data,b>a/20,act,a/20,end,",
    setup: "protocol = 'backpressure'/period = [9, 11]/delay = [1, 4]/[nodes]/a = ['x', 'u']/b = ['v']/",
    observer: "true",
};

/// What goes wrong in a call: on each object whose name stands in `whose`, of `files`, `fabric`, `out` and `err`, the call of
/// this number, counted from 1. With `send` the send of this number finds no memory, with `flip` the fabric changes what it
/// carries, and with `drift` it changes each message by another number.
#[derive(Clone, Copy)]
pub struct Fails<'a> {
    pub whose: &'a str,
    pub number: u32,
}

/// Nothing goes wrong.
pub const NOTHING: Fails = Fails {
    whose: "",
    number: 0,
};

/// How a call ended, and what was written.
#[derive(Drop)]
pub struct Ended {
    pub status: Status,
    pub out: List<u8>,
    pub err: List<u8>,
}

fn words(alloc: Global, line: &str) -> Result<Vec<String>, Memory> {
    let mut words = Vec::new(alloc);
    for word in line.split(' ') {
        words.push(String::from_str(alloc, word)?)?;
    }
    Ok(words)
}

// The calls on an object that are to fail: one, or none.
fn failing(alloc: Global, fails: Fails, object: &str) -> Result<List<u64>, Memory>
    ensures { IfOk result (λ calls. All (λ n. n < 2 ^ 64 - 1) calls) }
{
    let mut calls = List::new(alloc);
    if fails.whose.contains(object) {
        calls.push(u64::from(fails.number))?;
    }
    Ok(calls)
}

fn sink(alloc: Global, fails: Fails, object: &str) -> Result<MemSink, Memory>
    ensures { IfOk result (λ sink. (mem_sink_state sink).faults ≡ 0) }
{
    Ok(MemSink::new(alloc, failing(alloc, fails, object)?))
}

fn file(alloc: Global, name: &str, text: &str) -> Result<MemFile, Memory> {
    let name = Name::from_str(alloc, name)?;
    Ok(MemFile {
        name,
        bytes: bytes(alloc, text)?,
    })
}

fn named_files(alloc: Global, texts: Texts) -> Result<List<MemFile>, Memory> {
    let mut files = List::new(alloc);
    for (name, text) in [
        ("p", texts.program),
        ("i", texts.inputs),
        ("s", texts.schedule),
        ("c", texts.setup),
        ("o", texts.observer),
    ] {
        files.push(file(alloc, name, text)?)?;
    }
    Ok(files)
}

/// The files of a call.
pub fn files(alloc: Global, texts: Texts, fails: Fails) -> Result<MemFiles, Memory>
    ensures { IfOk result (λ files. (mem_files_state files).faults ≡ 0) }
{
    let files = named_files(alloc, texts)?;
    Ok(MemFiles::new(files, failing(alloc, fails, "files")?))
}

/// Does what the words of this line say over these files, where this goes wrong.
pub fn call(alloc: Global, line: &str, texts: Texts, fails: Fails) -> Result<Ended, Memory> {
    let mut out = sink(alloc, fails, "out")?;
    let (status, err) = call_into(alloc, line, texts, fails, &mut out)?;
    Ok(Ended {
        status,
        out: out.into_bytes(),
        err,
    })
}

/// The same with a sink for what is printed. Answers the status, and what is written of a refusal. The words behind `lttac` are those
/// of the second program.
pub fn call_into<O: Sink>(
    alloc: Global,
    line: &str,
    texts: Texts,
    fails: Fails,
    out: &mut O,
) -> Result<(Status, List<u8>), Memory>
    requires count { MayFail (O.state out.old).faults }
{
    if let Some(line) = line.strip_prefix("lttac ") {
        return call_second(alloc, line, texts, fails, out);
    }
    if fails.whose == "flip" {
        let mut fabric = FlipFabric::new(alloc);
        return call_over(alloc, line, texts, fails, &mut fabric, out);
    }
    if fails.whose == "drift" {
        let mut fabric = DriftFabric::new(MemFabric::new(alloc, List::new(alloc)));
        return call_over(alloc, line, texts, fails, &mut fabric, out);
    }
    if fails.whose == "send" {
        let mut fabric = TightFabric::new(alloc, u64::from(fails.number));
        return call_over(alloc, line, texts, fails, &mut fabric, out);
    }
    let mut fabric = MemFabric::new(alloc, failing(alloc, fails, "fabric")?);
    call_over(alloc, line, texts, fails, &mut fabric, out)
}

// The same over a fabric, which is still empty.
fn call_over<W: Fabric, O: Sink>(
    alloc: Global,
    line: &str,
    texts: Texts,
    fails: Fails,
    fabric: &mut W,
    out: &mut O,
) -> Result<(Status, List<u8>), Memory>
    requires fabric { MayFail (W.state fabric.old).faults }
    requires empty { (W.state fabric.old).kinds ≡ [] }
    requires out { MayFail (O.state out.old).faults }
{
    let words = words(alloc, line)?;
    let mut files = files(alloc, texts, fails)?;
    let mut err = sink(alloc, fails, "err")?;
    let status = ltta(alloc, &words, &mut files, fabric, out, &mut err);
    Ok((status, err.into_bytes()))
}

// Does what the words of this line say to the second program.
fn call_second<O: Sink>(
    alloc: Global,
    line: &str,
    texts: Texts,
    fails: Fails,
    out: &mut O,
) -> Result<(Status, List<u8>), Memory>
    requires { MayFail (O.state out.old).faults }
{
    let words = words(alloc, line)?;
    let mut files = files(alloc, texts, fails)?;
    let mut err = sink(alloc, fails, "err")?;
    let status = lttac(alloc, &words, &mut files, out, &mut err);
    Ok((status, err.into_bytes()))
}
