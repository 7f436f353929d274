// The rows of a schedule file, taken one by one.
ghost use Rattle.std.specs.Prelude.{◌≡◌, ◌<◌, ◌≤◌, ◌-◌, ◌^◌, [], ℕ, List, IsTrue, IsSome, OnOk, IfOk, IfErr, MatchResult, is_ok, true};
ghost use Rattle.lt_io.specs.Counts.{MayFail};
ghost use Rattle.lt_io.specs.FilesState.{KeepsNames, KeepsFiles};
ghost use Rattle.lt_io.specs.Visits.{Visited, taken_of};
ghost use Rattle.lt_rows.specs.Limits.{most_read};
ghost use Rattle.lt_rows.specs.Lines.{fresh_lines, CanGoOn, rows_ahead, end_ahead};
ghost use Rattle.lt_schedule.specs.Errand.{schedule_errand};
ghost use Rattle.lt_schedule.specs.Halted.{UnlessFailed, ReadCounted, HaltCounted, IsMemoryHalt, IsLink, IsRead, halted_by, long_fault, finished};
ghost use Rattle.lt_schedule.specs.Replayed.{TakesEvent, RefusesLine, HasHeader, LacksHeader, JudgesNext, JudgesAll, JudgesRows, JudgesOpen, JudgesFile};
ghost use Rattle.lt_base.specs.declared.memory.Or.TheVariants as either;
ghost use Rattle.lt_schedule.specs.declared.halt.Halt.TheVariants as halts;
ghost use Rattle.lt_schedule.specs.declared.halt.ScheduleRefusal.TheVariants as refusals;

use crate::{Halt, Replica, ScheduleRefusal, Stop};
use lt_base::{Or, Steps};
use lt_io::Files;
use lt_rows::{LineFault, Lines, MOST_EVENTS, RowFault, read_header};
use std::marker::Brand;
use std::sync::ledger::{Blank, Ledger};

/// Opens a schedule file, and has the replica take its rows.
///
/// The file is refused at its first row or event that is refused: at one row the limit on bytes comes first, then the limit on
/// events, then the row's own fault, and then the event's offence.
pub fn replay_schedule<F: Files, W, R: Replica<W>>(
    lines: &mut Lines,
    files: &mut F,
    name: &str,
    replica: &mut R,
    outside: &mut W,
) -> Result<(), Or<Halt<R::Offence>>>
    requires count { MayFail (F.state files.old).faults }
    requires link_count { R.faults outside.old < 2 ^ 64 - 1 }
    requires fresh { lines.old ≡ fresh_lines }
    requires stands { R.stands replica.old outside.old 0 [] }

    // Which count of faults rose.
    ensures cause { ReadCounted (F.state files.old).faults (F.state files.new).faults result }
    ensures link_cause { HaltCounted (R.faults outside.old) (R.faults outside.new) result }
    ensures sound { IsTrue (F.state files.old).sound → IsSome ((F.state files.old).named name.now) → (F.state files.new).faults ≡ (F.state files.old).faults }
    ensures prompt { R.prompt outside.old → ¬ IsMemoryHalt result }
    ensures keeps_files { KeepsNames (F.state files.old) (F.state files.new) }
    ensures visits { Visited (schedule_errand name.now) (F.state files.old).visits (F.state files.new).visits (is_ok result) }
    ensures visits_whole { Visited (schedule_errand name.now) (F.state files.old).visits (F.state files.new).visits true }
    ensures keeps { R.keeps replica.old outside.old replica.new outside.new }

    // The verdict on the file; a refused one is read to at most a piece past the row that is refused.
    ensures judged { JudgesFile (R.rules replica.old) (R.stands replica.new outside.new) ((F.state files.old).named name.now)
        (F.state files.old) (F.state files.new) result }
{
    match files.open(name) {
        Ok(()) => replay_open::<F, W, R, Brand>(lines, files, replica, outside, Blank::new(1)),
        Err(_) => Err(Or::Fault(Halt::Read)),
    }
}

// Has the replica take the rows of the open file, in steps that are counted in a ledger of their own.
fn replay_open<F: Files, W, R: Replica<W>, L: Ledger>(
    lines: &mut Lines,
    files: &mut F,
    replica: &mut R,
    outside: &mut W,
    blank: Blank,
) -> Result<(), Or<Halt<R::Offence>>>
    requires count { MayFail (F.state files.old).faults }
    requires link_count { R.faults outside.old < 2 ^ 64 - 1 }
    requires ready { CanGoOn lines.old (F.state files.old) }
    requires stands { R.stands replica.old outside.old 0 [] }
    requires name { blank.name ≡ L.name }
    requires parts { blank.parts ≡ L.parts }
    requires some { 0 < blank.parts }
    ensures cause { ReadCounted (F.state files.old).faults (F.state files.new).faults result }
    ensures link_cause { HaltCounted (R.faults outside.old) (R.faults outside.new) result }
    ensures sound { IsTrue (F.state files.old).sound → (F.state files.new).faults ≡ (F.state files.old).faults }
    ensures prompt { R.prompt outside.old → ¬ IsMemoryHalt result }
    ensures keeps_files { KeepsFiles (F.state files.old) (F.state files.new) }
    ensures taken { taken_of (F.state files.new).visits ≤ most_read }
    ensures keeps { R.keeps replica.old outside.old replica.new outside.new }
    ensures judged { JudgesOpen (R.rules replica.old) (R.stands replica.new outside.new) lines.old (F.state files.old) (F.state files.new) result }
{
    let mut steps = Steps::<L>::new(blank);
    replay_lines(lines, files, replica, outside, &mut steps)
}

/// Has the replica take the rows of the open file, of which the first is the header.
pub fn replay_lines<F: Files, W, R: Replica<W>, L: Ledger>(
    lines: &mut Lines,
    files: &mut F,
    replica: &mut R,
    outside: &mut W,
    steps: &mut Steps<L>,
) -> Result<(), Or<Halt<R::Offence>>>
    requires count { MayFail (F.state files.old).faults }
    requires link_count { R.faults outside.old < 2 ^ 64 - 1 }
    requires ready { CanGoOn lines.old (F.state files.old) }
    requires stands { R.stands replica.old outside.old steps.old [] }
    ensures cause { ReadCounted (F.state files.old).faults (F.state files.new).faults result }
    ensures link_cause { HaltCounted (R.faults outside.old) (R.faults outside.new) result }
    ensures sound { IsTrue (F.state files.old).sound → (F.state files.new).faults ≡ (F.state files.old).faults }
    ensures prompt { R.prompt outside.old → ¬ IsMemoryHalt result }
    ensures keeps_files { KeepsFiles (F.state files.old) (F.state files.new) }
    ensures taken { taken_of (F.state files.new).visits ≤ most_read }
    ensures keeps { R.keeps replica.old outside.old replica.new outside.new }
    ensures judged { JudgesRows (R.rules replica.old) (R.stands replica.new outside.new steps.new) lines.old (F.state files.old) (F.state files.new) result }
{
    take_header(lines, files)?;
    take_rows(lines, files, replica, outside, steps)
}

// Takes the first row as the header.
fn take_header<F: Files, O>(lines: &mut Lines, files: &mut F) -> Result<(), Or<Halt<O>>>
    requires count { MayFail (F.state files.old).faults }
    requires ready { CanGoOn lines.old (F.state files.old) }
    ensures cause { ReadCounted (F.state files.old).faults (F.state files.new).faults result }
    ensures unlinked { IfErr result (λ halt. ¬ IsLink halt) }
    ensures prompt { ¬ IsMemoryHalt result }
    ensures sound { IsTrue (F.state files.old).sound → (F.state files.new).faults ≡ (F.state files.old).faults }
    ensures keeps_files { KeepsFiles (F.state files.old) (F.state files.new) }
    ensures taken { taken_of (F.state files.new).visits ≤ most_read }
    ensures ready { OnOk result (CanGoOn lines.new (F.state files.new)) }
    ensures end { IsTrue (F.state files.old).told → OnOk result (end_ahead lines.new (F.state files.new) ≡ end_ahead lines.old (F.state files.old)) }
    ensures header { IsTrue (F.state files.old).told → MatchResult result
        (λ _. HasHeader (rows_ahead lines.old (F.state files.old)) (rows_ahead lines.new (F.state files.new)))
        (UnlessFailed (LacksHeader (end_ahead lines.old (F.state files.old)) (rows_ahead lines.old (F.state files.old)) (F.state files.new).place)) }
{
    match lines.advance(files) {
        Ok(true) => match read_header(lines.line()) {
            Ok(()) => Ok(()),
            Err(fault) => Err(at_row(0, fault)),
        },
        Ok(false) => Err(at_row(0, RowFault::Header)),
        Err(LineFault::TooLong) => Err(at_row(0, RowFault::NotCsv)),
        Err(LineFault::Bytes) => Err(Or::Fault(Halt::Refused(ScheduleRefusal::Bytes))),
        Err(LineFault::Read) => Err(Or::Fault(Halt::Read)),
    }
}

fn at_row<O>(row: u32, fault: RowFault) -> Or<Halt<O>>
    ensures { result ≡ either.Fault (halts.Refused (refusals.Row row fault)) }
{
    Or::Fault(Halt::Refused(ScheduleRefusal::Row { row, fault }))
}

// Takes all rows behind the header as events.
fn take_rows<F: Files, W, R: Replica<W>, L: Ledger>(
    lines: &mut Lines,
    files: &mut F,
    replica: &mut R,
    outside: &mut W,
    steps: &mut Steps<L>,
) -> Result<(), Or<Halt<R::Offence>>>
    requires count { MayFail (F.state files.old).faults }
    requires link_count { R.faults outside.old < 2 ^ 64 - 1 }
    requires ready { CanGoOn lines.old (F.state files.old) }
    requires stands { R.stands replica.old outside.old steps.old [] }
    ensures cause { ReadCounted (F.state files.old).faults (F.state files.new).faults result }
    ensures link_cause { HaltCounted (R.faults outside.old) (R.faults outside.new) result }
    ensures sound { IsTrue (F.state files.old).sound → (F.state files.new).faults ≡ (F.state files.old).faults }
    ensures prompt { R.prompt outside.old → ¬ IsMemoryHalt result }
    ensures keeps_files { KeepsFiles (F.state files.old) (F.state files.new) }
    ensures taken { taken_of (F.state files.new).visits ≤ most_read }
    ensures keeps { R.keeps replica.old outside.old replica.new outside.new }
    ensures judged { JudgesAll (R.rules replica.old) (R.stands replica.new outside.new steps.new) lines.old (F.state files.old) (F.state files.new) result }
{
    for number in 1..MOST_EVENTS + 2 {
        if !take_row(lines, files, replica, outside, number, steps)? {
            return finish(replica, number);
        }
    }
    unreachable!()
}

// Whether the list may stop, where the event of this number would follow.
fn finish<W, R: Replica<W>>(replica: &R, next: u32) -> Result<(), Or<Halt<R::Offence>>>
    ensures { (outside : W) (steps : ℕ) (before : List R.Event) → R.stands replica.now outside steps before
        → result ≡ finished next ((R.rules replica.now).missing before) }
{
    match replica.missing() {
        None => Ok(()),
        Some(offence) => Err(Or::Fault(Halt::Refused(ScheduleRefusal::Offence {
            event: next,
            offence,
        }))),
    }
}

// Takes the row of this number as an event, if there is one.
fn take_row<F: Files, W, R: Replica<W>, L: Ledger>(
    lines: &mut Lines,
    files: &mut F,
    replica: &mut R,
    outside: &mut W,
    number: u32,
    steps: &mut Steps<L>,
) -> Result<bool, Or<Halt<R::Offence>>>
    requires count { MayFail (F.state files.old).faults }
    requires link_count { R.faults outside.old < 2 ^ 64 - 1 }
    requires ready { CanGoOn lines.old (F.state files.old) }
    requires stands { (before : List R.Event) × R.stands replica.old outside.old steps.old before }
    ensures cause { ReadCounted (F.state files.old).faults (F.state files.new).faults result }
    ensures link_cause { HaltCounted (R.faults outside.old) (R.faults outside.new) result }
    ensures sound { IsTrue (F.state files.old).sound → (F.state files.new).faults ≡ (F.state files.old).faults }
    ensures prompt { R.prompt outside.old → ¬ IsMemoryHalt result }
    ensures keeps_files { KeepsFiles (F.state files.old) (F.state files.new) }
    ensures taken { taken_of (F.state files.new).visits ≤ most_read }
    ensures keeps { R.keeps replica.old outside.old replica.new outside.new }
    ensures ready { OnOk result (CanGoOn lines.new (F.state files.new)) }
    ensures few { IfOk result (λ more. IsTrue more → number ≤ 5000000) }
    ensures end { IsTrue (F.state files.old).told → OnOk result (end_ahead lines.new (F.state files.new) ≡ end_ahead lines.old (F.state files.old)) }
    ensures goes { (before : List R.Event) → R.stands replica.old outside.old steps.old before
        → JudgesNext (R.rules replica.old) (R.stands replica.new outside.new steps.new) before number
        lines.old lines.new (F.state files.old) (F.state files.new) result }
{
    match lines.advance(files) {
        Ok(true) => {
            take_event(lines.line(), replica, outside, number, steps)?;
            Ok(true)
        }
        Ok(false) => Ok(false),
        Err(LineFault::TooLong) => Err(too_long(number)),
        Err(LineFault::Bytes) => Err(Or::Fault(Halt::Refused(ScheduleRefusal::Bytes))),
        Err(LineFault::Read) => Err(Or::Fault(Halt::Read)),
    }
}

fn too_long<O>(number: u32) -> Or<Halt<O>>
    ensures { result ≡ either.Fault (halts.Refused (refusals.Row number (long_fault number))) }
{
    if number > MOST_EVENTS {
        at_row(number, RowFault::TooMany)
    } else {
        at_row(number, RowFault::NotCsv)
    }
}

// Takes a line as an event.
fn take_event<W, R: Replica<W>, L: Ledger>(
    line: &[u8],
    replica: &mut R,
    outside: &mut W,
    number: u32,
    steps: &mut Steps<L>,
) -> Result<(), Or<Halt<R::Offence>>>
    requires link_count { R.faults outside.old < 2 ^ 64 - 1 }
    requires stands { (before : List R.Event) × R.stands replica.old outside.old steps.old before }
    ensures link_cause { HaltCounted (R.faults outside.old) (R.faults outside.new) result }
    ensures unread { IfErr result (λ halt. ¬ IsRead halt) }
    ensures prompt { R.prompt outside.old → ¬ IsMemoryHalt result }
    ensures keeps { R.keeps replica.old outside.old replica.new outside.new }
    ensures few { OnOk result (number ≤ 5000000) }
    ensures takes { (before : List R.Event) → R.stands replica.old outside.old steps.old before → MatchResult result
        (λ _. TakesEvent (R.rules replica.old) number line.now (R.stands replica.new outside.new steps.new) before)
        (UnlessFailed (RefusesLine (R.rules replica.old) number line.now before)) }
{
    if number > MOST_EVENTS {
        return Err(at_row(number, RowFault::TooMany));
    }
    match replica.take_line(line, outside, steps) {
        Ok(()) => Ok(()),
        Err(stop) => Err(halt_of(number, stop)),
    }
}

fn halt_of<O>(number: u32, stop: Stop<O>) -> Or<Halt<O>>
    ensures { result ≡ halted_by number stop }
{
    match stop {
        Stop::Row(fault) => at_row(number, fault),
        Stop::Offence(offence) => Or::Fault(Halt::Refused(ScheduleRefusal::Offence {
            event: number,
            offence,
        })),
        Stop::Link => Or::Fault(Halt::Link),
        Stop::Memory => Or::Memory,
    }
}
