// `emit`: the C of a node of a placed program.
ghost use Rattle.std.specs.Prelude.{◌≡◌};
ghost use Rattle.lt_io.specs.Counts.{MayFail};
ghost use Rattle.lt_cli_c.specs.Emit.{AnswersEmit, emit_refusal, emit_reply};

use lt_base::{List, Or};
use lt_emit::EmitFault;
use lt_io::Files;
use lt_text_answers::Refusal;
use std::alloc::Global;

/// The C of the node of this name, or its header alone.
pub(crate) fn emit<F: Files>(
    alloc: Global,
    files: &mut F,
    header: bool,
    program: &str,
    config: &str,
    node: &str,
) -> Result<List<u8>, Or<Refusal>>
    requires { MayFail (F.state files.old).faults }
    ensures { AnswersEmit header program.now config.now node.now (F.state files.old) (F.state files.new) result }
{
    let emitted = lt_emit::emit(alloc, files, header, program, config, node);
    emit_reply(emitted)
}

// What was emitted, or its fault as a refusal.
fn emit_reply(emitted: Result<List<u8>, Or<EmitFault>>) -> Result<List<u8>, Or<Refusal>>
    ensures { result ≡ emit_reply emitted }
{
    match emitted {
        Ok(text) => Ok(text),
        Err(Or::Fault(fault)) => Err(Or::Fault(emit_refusal(fault))),
        Err(Or::Memory) => Err(Or::Memory),
    }
}

// Why no C is emitted, as a refusal.
fn emit_refusal(fault: EmitFault) -> Refusal
    ensures { result ≡ emit_refusal fault }
{
    match fault {
        EmitFault::Command(fault) => Refusal::Command(fault),
        EmitFault::NoNode(name) => Refusal::NoNode(name),
    }
}
