// What a node begins with.

ghost use Rattle.std.specs.Prelude.{◌≡◌, ◌++◌, ◌<◌, IfOk, OnOk, codes, pos};
ghost use Rattle.lt_c.specs.Tree.{Statement, assign, both, c_integer, phase};
ghost use Rattle.lt_c.specs.Views.{place_in, statement_of};
ghost use Rattle.lt_c_control.specs.Inboxes.{starting_inbox, starting_data, starting_ack, starting_acks, starting};
ghost use Rattle.lt_c.specs.Text.{statement_text};
ghost use Rattle.lt_c_heads.specs.Words.{spelling, indent};
ghost use Rattle.lt_c_heads.specs.Heads.{init_head};
ghost use Rattle.lt_c_bodies.specs.Starts.{first_values, first_of, first_data, starting_number, starting_numbers, starting_answers, starting_counts, starting_losing, starting_by, init_text};

use crate::code::keeps_of;
use crate::statements::{filling, statement, then};
use lt_base::{List, Memory, Value};
use lt_c::{Action, Expression, Variable};
use lt_c_control::{starting_ack, starting_inbox, starting_phase};
use lt_c_heads::{Carried, NodeFile, Peer, Regime, init_head};
use lt_c_step::firsts;
use std::alloc::Global;

fn first_values(alloc: Global, values: &[Carried]) -> Result<List<Value>, Memory>
    ensures { IfOk result (λ all. all ≡ first_values values.now) }
{
    let mut all = List::new(alloc);
    'values: for value in values {
        all.push(value.first)?;
    }
    Ok(all)
}

// A variable becomes 0.
fn zero(p: Variable) -> Action
    ensures { (run : Statement) → statement_of run result ≡ assign (place_in p) (c_integer (pos 0)) }
{
    Action::Assign(p, Expression::Number(0))
}

// An inbox for data before others.
fn inbox_before(alloc: Global, peer: &Peer, rest: Action) -> Result<Action, Memory>
    ensures { IfOk result (λ s. (run : Statement) → statement_of run s ≡ both (starting_inbox (first_of peer.now)) (statement_of run rest)) }
{
    let values = first_values(alloc, &peer.values)?;
    let first = starting_inbox(alloc, peer.number, &values)?;
    then(alloc, first, rest)
}

fn inboxes(alloc: Global, peers: &[Peer]) -> Result<Action, Memory>
    ensures { IfOk result (λ s. (run : Statement) → statement_of run s ≡ starting_data (first_data peers.now)) }
{
    let mut all = Action::Nothing;
    'peers: for i in 0..peers.len() {
        let peer = &peers[peers.len() - 1 - i];
        all = inbox_before(alloc, peer, all)?;
    }
    Ok(all)
}

// An inbox for acknowledgements before others.
fn ack_before(alloc: Global, j: u32, rest: Action) -> Result<Action, Memory>
    ensures { IfOk result (λ s. (run : Statement) → statement_of run s ≡ both (starting_ack j) (statement_of run rest)) }
{
    let first = starting_ack(alloc, j)?;
    then(alloc, first, rest)
}

fn acks(alloc: Global, js: &[u32]) -> Result<Action, Memory>
    ensures { IfOk result (λ s. (run : Statement) → statement_of run s ≡ starting_acks js.now) }
{
    let mut all = Action::Nothing;
    'nodes: for i in 0..js.len() {
        let j = js[js.len() - 1 - i];
        all = ack_before(alloc, j, all)?;
    }
    Ok(all)
}

// What a node begins with whose messages have bits.
fn by_bits(alloc: Global, peers: &[Peer], js: &[u32], counts: bool) -> Result<Action, Memory>
    ensures { IfOk result (λ s. (run : Statement) → statement_of run s ≡ starting (first_data peers.now) js.now counts) }
{
    let first = inboxes(alloc, peers)?;
    let second = acks(alloc, js)?;
    let phase = starting_phase(alloc, counts)?;
    let rest = then(alloc, second, phase)?;
    then(alloc, first, rest)
}

// An inbox for data by numbers before others.
fn number_before(alloc: Global, peer: &Peer, rest: Action) -> Result<Action, Memory>
    ensures { IfOk result (λ s. (run : Statement) → statement_of run s ≡ both (starting_number (first_of peer.now)) (statement_of run rest)) }
{
    let filled = filling(alloc, peer.number, &peer.values)?;
    let first = then(alloc, zero(Variable::Newest(peer.number)), filled)?;
    then(alloc, first, rest)
}

fn numbers(alloc: Global, peers: &[Peer]) -> Result<Action, Memory>
    ensures { IfOk result (λ s. (run : Statement) → statement_of run s ≡ starting_numbers (first_data peers.now)) }
{
    let mut all = Action::Nothing;
    'peers: for i in 0..peers.len() {
        let peer = &peers[peers.len() - 1 - i];
        all = number_before(alloc, peer, all)?;
    }
    Ok(all)
}

fn answers(alloc: Global, js: &[u32]) -> Result<Action, Memory>
    ensures { IfOk result (λ s. (run : Statement) → statement_of run s ≡ starting_answers js.now) }
{
    let mut all = Action::Nothing;
    'nodes: for i in 0..js.len() {
        let j = js[js.len() - 1 - i];
        all = then(alloc, zero(Variable::Answered(j)), all)?;
    }
    Ok(all)
}

fn counts(alloc: Global) -> Result<Action, Memory>
    ensures { IfOk result (λ s. (run : Statement) → statement_of run s ≡ starting_counts) }
{
    let both = then(alloc, zero(Variable::Executions), zero(Variable::Sendings))?;
    then(alloc, zero(Variable::Phase), both)
}

// What a node begins with whose links lose messages.
fn by_numbers(alloc: Global, peers: &[Peer], js: &[u32]) -> Result<Action, Memory>
    ensures { IfOk result (λ s. (run : Statement) → statement_of run s ≡ starting_losing (first_data peers.now) js.now) }
{
    let first = numbers(alloc, peers)?;
    let second = answers(alloc, js)?;
    let third = counts(alloc)?;
    let rest = then(alloc, second, third)?;
    then(alloc, first, rest)
}

fn starting_by(alloc: Global, regime: Regime, peers: &[Peer], js: &[u32]) -> Result<Action, Memory>
    ensures { IfOk result (λ s. (run : Statement) → statement_of run s ≡ starting_by regime (first_data peers.now) js.now) }
{
    match regime {
        Regime::Pressing => by_bits(alloc, peers, js, false),
        Regime::Counting(_) => by_bits(alloc, peers, js, true),
        Regime::Losing => by_numbers(alloc, peers, js),
    }
}

fn opening(out: &mut List<u8>, t: &[u8]) -> Result<(), Memory>
    ensures { OnOk result (out.new ≡ out.old ++ (codes "\n" ++ (init_head t.now ++ codes "\n{\n"))) }
{
    out.extend(b"\n")?;
    init_head(out, t)?;
    out.extend(b"\n{\n")
}

// Appends what inboxes and the controller begin with.
fn begun(alloc: Global, out: &mut List<u8>, file: &NodeFile) -> Result<(), Memory>
    ensures { OnOk result (out.new ≡ out.old ++ statement_text (spelling file.now) indent (starting_by file.now.regime (first_data file.now.links.senders) file.now.links.answerers)) }
{
    let begins = starting_by(
        alloc,
        file.regime,
        &file.links.senders,
        &file.links.answerers,
    )?;
    statement(alloc, out, file, &begins)
}

/// Appends the function that begins.
pub fn init(alloc: Global, out: &mut List<u8>, t: &[u8], file: &NodeFile) -> Result<(), Memory>
    ensures { OnOk result (out.new ≡ out.old ++ init_text t.now file.now) }
{
    opening(out, t)?;
    firsts(out, &file.part.decls, keeps_of(&file.part.code))?;
    begun(alloc, out, file)?;
    out.extend(b"}\n")
}
