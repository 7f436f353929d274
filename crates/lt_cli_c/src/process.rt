// The top call on a line of words.
ghost use Rattle.lt_io.specs.Counts.{MayFail};
ghost use Rattle.lt_cli_c.specs.LttacClauses.{LttacPerformsLine};

use crate::top::lttac;
use lt_cli::behind_first;
use lt_io::{Files, Sink};
use lt_text_answers::Status;
use std::alloc::Global;
use std::io;
use std::io::ErrorKind;

/// The top call on the words of a line, of which the first is the program's name. Words that are no text are wrong words, as
/// none at all are. A text goes to `out`, and a refusal's line to `err`.
pub fn lttac_program<F: Files, O: Sink, E: Sink>(
    alloc: Global,
    line: io::Result<Vec<String>>,
    files: &mut F,
    out: &mut O,
    err: &mut E,
) -> Status
    requires files { MayFail (F.state files.old).faults }
    requires out { MayFail (O.state out.old).faults }
    requires err { MayFail (E.state err.old).faults }
    ensures { LttacPerformsLine F.state O.state E.state line (files.old, out.old, err.old) (files.new, out.new, err.new) result }
{
    match line {
        Ok(words) => lttac(alloc, behind_first(&words), files, out, err),
        Err(error) if error.kind() == ErrorKind::OutOfMemory => Status::Memory,
        Err(_) => lttac(alloc, &[], files, out, err),
    }
}
