// Why a command is refused.
ghost use Rattle.std.specs.Prelude.{◌≡◌, ◌++◌, IfOk, OnOk};
ghost use Rattle.lt_text_answers.specs.Replies.{watch_refusal};
ghost use Rattle.lt_text_lines.specs.Lines.{program_line};
ghost use Rattle.lt_text_answers.specs.Texts.{fault_line, fault_status, no_node_line, inputs_status, file_limit_line, refusal_line, program_status, refusal_status, row_status};

use crate::Status;
use crate::place_line::append_placement;
use lt_base::{List, Memory, Name};
use lt_front::ProgramFault;
use lt_inputs::InputKind;
use lt_load::{CommandFault, What};
use lt_past::ObserverFault;
use lt_rows::RowFault;
use lt_text_lines::{
    append_config, append_inputs, append_lossy, append_observer, append_offence, append_row,
    append_timing, append_window, program_line,
};
use lt_watch::WatchFault;
use std::alloc::Global;

/// Why a command is refused.
#[derive(Drop)]
pub enum Refusal {
    /// The words ask for no command of `ltta`.
    Words,
    /// The words ask for no command of `lttac`.
    LttacWords,
    /// The setup has no node of the name that the words give.
    NoNode(Name),
    /// The command's files are at fault, or a call on them failed.
    Command(CommandFault),
    /// The observer is at fault.
    Observer(ObserverFault),
}

impl Refusal {
    /// The status with which it ends.
    pub fn status(&self) -> Status
        ensures { result ≡ refusal_status self.now }
    {
        match self {
            Refusal::Words => Status::Words,
            Refusal::LttacWords => Status::Words,
            Refusal::NoNode(_) => Status::Words,
            Refusal::Command(fault) => fault_status(fault),
            Refusal::Observer(_) => Status::Observer,
        }
    }

    /// Its line, without a line feed.
    pub fn line(&self, alloc: Global) -> Result<List<u8>, Memory>
        ensures { IfOk result (λ line. line ≡ refusal_line self.now) }
    {
        let mut line = List::new(alloc);
        append_refusal(alloc, &mut line, self)?;
        Ok(line)
    }
}

/// Why a watched run is refused, as a refusal.
pub(crate) fn watch_refusal(fault: WatchFault) -> Refusal
    ensures { result ≡ watch_refusal fault }
{
    match fault {
        WatchFault::Command(fault) => Refusal::Command(fault),
        WatchFault::Observer(fault) => Refusal::Observer(fault),
    }
}

fn fault_status(fault: &CommandFault) -> Status
    ensures { result ≡ fault_status fault.now }
{
    match fault {
        CommandFault::Program(fault) => program_status(fault),
        CommandFault::Config(_) => Status::Setup,
        CommandFault::Place { .. } => Status::Setup,
        CommandFault::Timing { .. } => Status::Setup,
        CommandFault::Window { .. } => Status::Setup,
        CommandFault::Inputs(fault) => inputs_status(fault.kind),
        CommandFault::TooManyCells => Status::Limit,
        CommandFault::Row { row: _, fault } => row_status(*fault),
        CommandFault::Offence { .. } => Status::Schedule,
        CommandFault::Lossy { .. } => Status::Schedule,
        CommandFault::Limit(_) => Status::Limit,
        CommandFault::Read => Status::Outside,
        CommandFault::Link => Status::Outside,
    }
}

fn program_status(fault: &ProgramFault) -> Status
    ensures { result ≡ program_status fault.now }
{
    if fault.is_limit() {
        return Status::Limit;
    }
    Status::Program
}

fn inputs_status(kind: InputKind) -> Status
    ensures { result ≡ inputs_status kind }
{
    match kind {
        InputKind::TooMany => Status::Limit,
        _ => Status::Inputs,
    }
}

fn row_status(fault: RowFault) -> Status
    ensures { result ≡ row_status fault }
{
    match fault {
        RowFault::TooMany => Status::Limit,
        _ => Status::Schedule,
    }
}

// Appends a refusal's line.
fn append_refusal(alloc: Global, line: &mut List<u8>, refusal: &Refusal) -> Result<(), Memory>
    ensures { OnOk result (line.new ≡ line.old ++ refusal_line refusal.now) }
{
    match refusal {
        Refusal::Words => {
            line.extend(
                b"words: usage: ltta check P [C] | meaning P I | run P I S [C] | plan C [--horizon H] | sim P I C --seed N --horizon H | big N | watch P I S O [C] | audit P I S C | trace P I S C [--node NAME] [--from T] [--to T]",
            )
        }
        Refusal::LttacWords => line.extend(
            b"words: usage: lttac emit [--header] P C NODE | schedule P I C --seed N --horizon H [--jitter J] [--loss R] | draw P I S C [--node NAME] [--from T] [--to T] [--width W] | plot P I [S C] [--observer O] [--from K] [--to K] [--width W]",
        ),
        Refusal::NoNode(name) => append_no_node(line, name),
        Refusal::Command(fault) => append_fault(alloc, line, fault),
        Refusal::Observer(fault) => append_observer(line, *fault),
    }
}

// Appends that there is no node of this name.
fn append_no_node(line: &mut List<u8>, name: &Name) -> Result<(), Memory>
    ensures { OnOk result (line.new ≡ line.old ++ no_node_line name.now) }
{
    append_both(line, b"words: no node ", name.as_str().as_bytes())
}

// Appends two texts.
fn append_both(line: &mut List<u8>, head: &[u8], tail: &[u8]) -> Result<(), Memory>
    ensures { OnOk result (line.new ≡ line.old ++ (head.now ++ tail.now)) }
{
    line.extend(head)?;
    line.extend(tail)
}

fn append_fault(alloc: Global, line: &mut List<u8>, fault: &CommandFault) -> Result<(), Memory>
    ensures { OnOk result (line.new ≡ line.old ++ fault_line fault.now) }
{
    match fault {
        CommandFault::Program(fault) => append_program(alloc, line, fault),
        CommandFault::Config(fault) => append_config(line, fault),
        CommandFault::Place { fault, main } => append_placement(line, main, fault),
        CommandFault::Timing {
            fault,
            names,
            mixed,
        } => append_timing(line, *fault, names, *mixed),
        CommandFault::Window { fault, names } => append_window(line, *fault, names),
        CommandFault::Inputs(fault) => append_inputs(line, *fault),
        CommandFault::TooManyCells => line.extend(b"limit: meaning cells 16000000"),
        CommandFault::Row { row, fault } => append_row(line, *row, *fault),
        CommandFault::Offence {
            event,
            offence,
            shape,
        } => append_offence(line, shape, *event, *offence),
        CommandFault::Lossy {
            event,
            offence,
            shape,
        } => append_lossy(line, shape, *event, *offence),
        CommandFault::Limit(what) => append_limit(line, *what),
        CommandFault::Read => line.extend(b"fault: read"),
        CommandFault::Link => line.extend(b"fault: link"),
    }
}

// Appends the line of a program's fault.
fn append_program(alloc: Global, line: &mut List<u8>, fault: &ProgramFault) -> Result<(), Memory>
    ensures { OnOk result (line.new ≡ line.old ++ program_line fault.now) }
{
    let text = program_line(alloc, fault)?;
    line.extend(&text)
}

fn append_limit(line: &mut List<u8>, what: What) -> Result<(), Memory>
    ensures { OnOk result (line.new ≡ line.old ++ file_limit_line what) }
{
    match what {
        What::ProgramBytes => line.extend(b"limit: program bytes 1048576"),
        What::ConfigBytes => line.extend(b"limit: config bytes 262144"),
        What::InputsBytes => line.extend(b"limit: inputs bytes 67108864"),
        What::ObserverBytes => line.extend(b"limit: observer bytes 65536"),
        What::ScheduleBytes => line.extend(b"limit: schedule bytes 1073741824"),
    }
}
