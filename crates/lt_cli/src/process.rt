// The top call on a line of words.
ghost use Rattle.std.specs.Prelude.{◌≡◌, [], drop};
ghost use Rattle.lt_io.specs.Counts.{MayFail};
ghost use Rattle.lt_cli.specs.Clauses.{PerformsLine};

use crate::top::ltta;
use lt_io::{Fabric, Files, Sink};
use lt_text_answers::Status;
use std::alloc::Global;
use std::io;
use std::io::ErrorKind;

/// The top call on the words of a line, of which the first is the program's name. Words that are no text are wrong words, as
/// none at all are. A text goes to `out`, and a refusal's line to `err`.
pub fn program<F: Files, W: Fabric, O: Sink, E: Sink>(
    alloc: Global,
    line: io::Result<Vec<String>>,
    files: &mut F,
    fabric: &mut W,
    out: &mut O,
    err: &mut E,
) -> Status
    requires files { MayFail (F.state files.old).faults }
    requires fabric { MayFail (W.state fabric.old).faults }
    requires empty { (W.state fabric.old).kinds ≡ [] }
    requires out { MayFail (O.state out.old).faults }
    requires err { MayFail (E.state err.old).faults }
    ensures { PerformsLine F.state W.state O.state E.state line (files.old, fabric.old, out.old, err.old) (files.new, fabric.new, out.new, err.new) result }
{
    match line {
        Ok(words) => ltta(alloc, behind_first(&words), files, fabric, out, err),
        Err(error) if error.kind() == ErrorKind::OutOfMemory => Status::Memory,
        Err(_) => ltta(alloc, &[], files, fabric, out, err),
    }
}

/// The words behind the first.
pub fn behind_first(words: &[String]) -> &[String]
    ensures { result.now ≡ drop 1 words.now }
{
    if words.is_empty() {
        return words;
    }
    &words[1..]
}
