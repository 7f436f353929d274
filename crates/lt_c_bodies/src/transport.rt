// The functions of a node for the transport of its messages.

ghost use Rattle.std.specs.Prelude.{◌≡◌, ◌++◌, ◌<◌, ◌^◌, length, IfOk, OnOk, codes};
ghost use Rattle.std.specs.List.{flat_map};
ghost use Rattle.lt_c.specs.Tree.{Statement, slot, message, assign, branch, both, nothing, c_var, c_join, o_lt};
ghost use Rattle.lt_c.specs.Views.{place_in, statement_of};
ghost use Rattle.lt_c.specs.Text.{statement_text};
ghost use Rattle.lt_c_heads.specs.Words.{spelling, indent};
ghost use Rattle.lt_c_heads.specs.Heads.{deliver_head, acknowledge_head, message_head, answer_head};
ghost use Rattle.lt_c_bodies.specs.Messages.{delivering_newer, acknowledging_newer, delivering_by, acknowledging_by, giving, giving_again, messaging, deliver_text, acknowledge_text, message_text, answer_text, transport_text};

use crate::statements::{copied, statement, taking, then};
use lt_base::{List, Memory};
use lt_c::{Action, Expression, Symbol, Variable};
use lt_c_control::{acknowledging, delivering};
use lt_c_heads::words::three;
use lt_c_heads::{
    Carried, NodeFile, Peer, Regime, acknowledge_head, answer_head, deliver_head, message_head,
};
use std::alloc::Global;

// A statement where one number is less than another.
fn where_less(alloc: Global, a: Variable, b: Variable, s: Action) -> Result<Action, Memory>
    ensures { IfOk result (λ t. (run : Statement) → statement_of run t ≡ branch (c_join o_lt (c_var (place_in a)) (c_var (place_in b))) (statement_of run s) nothing) }
{
    let a = Box::new(alloc, Expression::Var(a))?;
    let b = Box::new(alloc, Expression::Var(b))?;
    let s = Box::new(alloc, s)?;
    let rest = Box::new(alloc, Action::Nothing)?;
    Ok(Action::Branch(Expression::Join(Symbol::Lt, a, b), s, rest))
}

fn delivering_newer(alloc: Global, j: u32, count: u32) -> Result<Action, Memory>
    ensures { IfOk result (λ s. (run : Statement) → statement_of run s ≡ delivering_newer j count) }
{
    let values = taking(alloc, j, count)?;
    let number = copied(Variable::Newest(j), Variable::MessageNumber);
    let all = then(alloc, number, values)?;
    where_less(alloc, Variable::Newest(j), Variable::MessageNumber, all)
}

fn delivering_by(alloc: Global, regime: Regime, j: u32, count: u32) -> Result<Action, Memory>
    ensures { IfOk result (λ s. (run : Statement) → statement_of run s ≡ delivering_by regime j count) }
{
    match regime {
        Regime::Pressing | Regime::Counting(_) => delivering(alloc, j, count),
        Regime::Losing => delivering_newer(alloc, j, count),
    }
}

fn acknowledging_newer(alloc: Global, j: u32) -> Result<Action, Memory>
    ensures { IfOk result (λ s. (run : Statement) → statement_of run s ≡ acknowledging_newer j) }
{
    let number = copied(Variable::Answered(j), Variable::AnswerNumber);
    where_less(alloc, Variable::Answered(j), Variable::AnswerNumber, number)
}

fn acknowledging_by(alloc: Global, regime: Regime, j: u32) -> Result<Action, Memory>
    ensures { IfOk result (λ s. (run : Statement) → statement_of run s ≡ acknowledging_by regime j) }
{
    match regime {
        Regime::Pressing | Regime::Counting(_) => Ok(acknowledging(j)),
        Regime::Losing => acknowledging_newer(alloc, j),
    }
}

// The value at a place of a message before others.
fn given_before(alloc: Global, k: u32, x: u32, rest: Action) -> Result<Action, Memory>
    ensures { IfOk result (λ s. (run : Statement) → statement_of run s ≡ both (assign (message k) (c_var (slot x))) (statement_of run rest)) }
{
    then(alloc, copied(Variable::Message(k), Variable::Slot(x)), rest)
}

fn giving(alloc: Global, values: &[Carried]) -> Result<Action, Memory>
    requires few { length values.now < 2 ^ 32 }
    ensures { IfOk result (λ s. (run : Statement) → statement_of run s ≡ giving 0 values.now) }
{
    let mut all = Action::Nothing;
    'values: for i in 0..values.len() {
        let k = values.len() - 1 - i;
        all = given_before(alloc, k as u32, values[k].from_slot, all)?;
    }
    Ok(all)
}

fn giving_again(alloc: Global, j: u32, count: u32) -> Result<Action, Memory>
    ensures { IfOk result (λ s. (run : Statement) → statement_of run s ≡ giving_again j count) }
{
    let mut all = Action::Nothing;
    'places: for k in 0..count {
        all = then(
            alloc,
            all,
            copied(Variable::Message(k), Variable::Posted(j, k)),
        )?;
    }
    Ok(all)
}

fn messaging(alloc: Global, regime: Regime, peer: &Peer) -> Result<Action, Memory>
    ensures { IfOk result (λ s. (run : Statement) → statement_of run s ≡ messaging regime peer.now) }
{
    match regime {
        Regime::Pressing | Regime::Counting(_) => {
            let values = giving(alloc, &peer.values)?;
            then(alloc, copied(Variable::MessageBit, Variable::Sent), values)
        }
        Regime::Losing => {
            let values = giving_again(alloc, peer.number, peer.values.len() as u32)?;
            then(
                alloc,
                copied(Variable::MessageNumber, Variable::Sendings),
                values,
            )
        }
    }
}

// Appends the body of a function.
fn body(alloc: Global, out: &mut List<u8>, file: &NodeFile, s: &Action) -> Result<(), Memory>
    ensures { OnOk result (out.new ≡ out.old ++ (codes "\n{\n" ++ (statement_text (spelling file.now) indent (statement_of nothing s.now) ++ codes "}\n"))) }
{
    out.extend(b"\n{\n")?;
    statement(alloc, out, file, s)?;
    out.extend(b"}\n")
}

fn deliver(
    alloc: Global,
    out: &mut List<u8>,
    t: &[u8],
    file: &NodeFile,
    peer: &Peer,
) -> Result<(), Memory>
    ensures { OnOk result (out.new ≡ out.old ++ deliver_text t.now file.now peer.now) }
{
    let count = peer.values.len() as u32;
    let s = delivering_by(alloc, file.regime, peer.number, count)?;
    out.extend(b"\n")?;
    deliver_head(out, t, &file.names, peer)?;
    body(alloc, out, file, &s)
}

fn deliver_all(
    alloc: Global,
    out: &mut List<u8>,
    t: &[u8],
    file: &NodeFile,
    peers: &[Peer],
) -> Result<(), Memory>
    ensures { OnOk result (out.new ≡ out.old ++ flat_map (deliver_text t.now file.now) peers.now) }
{
    'peers: for peer in peers {
        deliver(alloc, out, t, file, peer)?;
    }
    Ok(())
}

fn acknowledge(
    alloc: Global,
    out: &mut List<u8>,
    t: &[u8],
    file: &NodeFile,
    j: u32,
) -> Result<(), Memory>
    ensures { OnOk result (out.new ≡ out.old ++ acknowledge_text t.now file.now j) }
{
    let s = acknowledging_by(alloc, file.regime, j)?;
    out.extend(b"\n")?;
    acknowledge_head(out, t, file.regime, &file.names, j)?;
    body(alloc, out, file, &s)
}

fn acknowledge_all(
    alloc: Global,
    out: &mut List<u8>,
    t: &[u8],
    file: &NodeFile,
    js: &[u32],
) -> Result<(), Memory>
    ensures { OnOk result (out.new ≡ out.old ++ flat_map (acknowledge_text t.now file.now) js.now) }
{
    'nodes: for j in js {
        acknowledge(alloc, out, t, file, *j)?;
    }
    Ok(())
}

fn message(
    alloc: Global,
    out: &mut List<u8>,
    t: &[u8],
    file: &NodeFile,
    peer: &Peer,
) -> Result<(), Memory>
    ensures { OnOk result (out.new ≡ out.old ++ message_text t.now file.now peer.now) }
{
    let s = messaging(alloc, file.regime, peer)?;
    out.extend(b"\n")?;
    message_head(out, t, &file.names, peer)?;
    body(alloc, out, file, &s)
}

fn message_all(
    alloc: Global,
    out: &mut List<u8>,
    t: &[u8],
    file: &NodeFile,
    peers: &[Peer],
) -> Result<(), Memory>
    ensures { OnOk result (out.new ≡ out.old ++ flat_map (message_text t.now file.now) peers.now) }
{
    'peers: for peer in peers {
        message(alloc, out, t, file, peer)?;
    }
    Ok(())
}

// Appends a function without parameters that returns a variable.
fn returning(out: &mut List<u8>, t: &[u8], regime: Regime, text: &[u8]) -> Result<(), Memory>
    ensures { OnOk result (out.new ≡ out.old ++ (codes "\n" ++ (answer_head t.now regime ++ text.now))) }
{
    out.extend(b"\n")?;
    answer_head(out, t, regime)?;
    out.extend(text)
}

fn answer(out: &mut List<u8>, t: &[u8], regime: Regime) -> Result<(), Memory>
    ensures { OnOk result (out.new ≡ out.old ++ answer_text t.now regime) }
{
    match regime {
        Regime::Pressing => returning(out, t, regime, b"\n{\n    return executed;\n}\n"),
        Regime::Counting(_) => Ok(()),
        Regime::Losing => returning(out, t, regime, b"\n{\n    return executions;\n}\n"),
    }
}

/// Appends all functions for the transport.
pub fn transport_functions(
    alloc: Global,
    out: &mut List<u8>,
    t: &[u8],
    file: &NodeFile,
) -> Result<(), Memory>
    ensures { OnOk result (out.new ≡ out.old ++ transport_text t.now file.now) }
{
    deliver_all(alloc, out, t, file, &file.links.senders)?;
    acknowledge_all(alloc, out, t, file, &file.links.answerers)?;
    message_all(alloc, out, t, file, &file.links.receivers)?;
    answer(out, t, file.regime)
}
