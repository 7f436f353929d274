// The variables that a file keeps.

ghost use Rattle.std.specs.Prelude.{◌≡◌, ◌++◌, ◌<◌, ◌^◌, length, OnOk, codes};
ghost use Rattle.std.specs.List.{flat_map};
ghost use Rattle.lt_c.specs.Spelled.{node_at};
ghost use Rattle.lt_c_heads.specs.Words.{texts_from};
ghost use Rattle.lt_c_bodies.specs.Variables.{slot_text, delay_text, read_text, inbox_text, answers_text, posted_text, posted_texts, control_text, pointers_text, slots_text, inboxes_text, controller_text, variables_text};

use crate::code::keeps_of;
use lt_base::{Decl, List, Memory, Name};
use lt_c::{node_name, variable};
use lt_c_heads::words::{four, has_inputs, has_items, three, three_if, two, type_of, type_word};
use lt_c_heads::{NodeFile, Peer, Regime};
use lt_step::Keep;

fn slot(out: &mut List<u8>, decls: &[Decl], x: usize, decl: &Decl) -> Result<(), Memory>
    requires { x < 2 ^ 32 }
    ensures { OnOk result (out.new ≡ out.old ++ slot_text decls.now x decl.now) }
{
    two(out, b"static ", type_word(decl.ty))?;
    variable(out, decls, x as u32)?;
    out.extend(b";\n")
}

fn declared_slots(out: &mut List<u8>, decls: &[Decl]) -> Result<(), Memory>
    requires { length decls.now < 2 ^ 32 }
    ensures { OnOk result (out.new ≡ out.old ++ texts_from (slot_text decls.now) 0 decls.now) }
{
    'decls: for (x, decl) in decls.iter().enumerate() {
        slot(out, decls, x, decl)?;
    }
    Ok(())
}

fn delay(out: &mut List<u8>, decls: &[Decl], keep: &Keep) -> Result<(), Memory>
    ensures { OnOk result (out.new ≡ out.old ++ delay_text decls.now keep.now) }
{
    two(out, b"static ", type_word(type_of(keep.first)))?;
    variable(out, decls, keep.slot)?;
    out.extend(b";\n")
}

fn delays(out: &mut List<u8>, decls: &[Decl], keeps: &[Keep]) -> Result<(), Memory>
    ensures { OnOk result (out.new ≡ out.old ++ flat_map (delay_text decls.now) keeps.now) }
{
    'keeps: for keep in keeps {
        delay(out, decls, keep)?;
    }
    Ok(())
}

// Appends the variables of the step.
fn slots(out: &mut List<u8>, file: &NodeFile) -> Result<(), Memory>
    ensures { OnOk result (out.new ≡ out.old ++ slots_text file.now) }
{
    out.extend(b"\n/* The variables of the step. */\n")?;
    declared_slots(out, &file.part.decls)?;
    delays(out, &file.part.decls, keeps_of(&file.part.code))
}

fn read_line(out: &mut List<u8>, regime: Regime, name: &[u8]) -> Result<(), Memory>
    ensures { OnOk result (out.new ≡ out.old ++ read_text regime name.now) }
{
    match regime {
        Regime::Pressing | Regime::Counting(_) => three(out, b"static bool read_", name, b";\n"),
        Regime::Losing => Ok(()),
    }
}

fn inbox(
    out: &mut List<u8>,
    t: &[u8],
    regime: Regime,
    names: &[Name],
    peer: &Peer,
) -> Result<(), Memory>
    ensures { OnOk result (out.new ≡ out.old ++ inbox_text t.now regime names.now peer.now) }
{
    let name = node_name(names, peer.number);
    four(out, b"static ", t, b"_from_", name)?;
    three(out, b" data_", name, b";\n")?;
    read_line(out, regime, name)
}

fn inboxes_of(
    out: &mut List<u8>,
    t: &[u8],
    regime: Regime,
    names: &[Name],
    peers: &[Peer],
) -> Result<(), Memory>
    ensures { OnOk result (out.new ≡ out.old ++ flat_map (inbox_text t.now regime names.now) peers.now) }
{
    'peers: for peer in peers {
        inbox(out, t, regime, names, peer)?;
    }
    Ok(())
}

// Appends an inbox for acknowledgements by bits.
fn bits(out: &mut List<u8>, name: &[u8]) -> Result<(), Memory>
    ensures { OnOk result (out.new ≡ out.old ++ ((codes "static bool ack_" ++ (name.now ++ codes ";\n")) ++ (codes "static bool seen_" ++ (name.now ++ codes ";\n")))) }
{
    three(out, b"static bool ack_", name, b";\n")?;
    three(out, b"static bool seen_", name, b";\n")
}

fn answers(out: &mut List<u8>, regime: Regime, name: &[u8]) -> Result<(), Memory>
    ensures { OnOk result (out.new ≡ out.old ++ answers_text regime name.now) }
{
    match regime {
        Regime::Pressing | Regime::Counting(_) => bits(out, name),
        Regime::Losing => three(out, b"static int64_t answered_", name, b";\n"),
    }
}

fn answers_of(
    out: &mut List<u8>,
    regime: Regime,
    names: &[Name],
    answerers: &[u32],
) -> Result<(), Memory>
    ensures { OnOk result (out.new ≡ out.old ++ flat_map (λ j. answers_text regime (node_at names.now j)) answerers.now) }
{
    'nodes: for j in answerers {
        answers(out, regime, node_name(names, *j))?;
    }
    Ok(())
}

fn posted(out: &mut List<u8>, t: &[u8], names: &[Name], peer: &Peer) -> Result<(), Memory>
    ensures { OnOk result (out.new ≡ out.old ++ posted_text t.now names.now peer.now) }
{
    let name = node_name(names, peer.number);
    four(out, b"static ", t, b"_to_", name)?;
    three(out, b" posted_", name, b";\n")
}

fn posted_all(out: &mut List<u8>, t: &[u8], names: &[Name], peers: &[Peer]) -> Result<(), Memory>
    ensures { OnOk result (out.new ≡ out.old ++ flat_map (posted_text t.now names.now) peers.now) }
{
    'peers: for peer in peers {
        posted(out, t, names, peer)?;
    }
    Ok(())
}

// Appends the last messages, where they are sent again.
fn posted_by(
    out: &mut List<u8>,
    t: &[u8],
    regime: Regime,
    names: &[Name],
    peers: &[Peer],
) -> Result<(), Memory>
    ensures { OnOk result (out.new ≡ out.old ++ posted_texts t.now regime names.now peers.now) }
{
    match regime {
        Regime::Pressing | Regime::Counting(_) => Ok(()),
        Regime::Losing => posted_all(out, t, names, peers),
    }
}

fn inboxes(out: &mut List<u8>, t: &[u8], file: &NodeFile) -> Result<(), Memory>
    ensures { OnOk result (out.new ≡ out.old ++ inboxes_text t.now file.now) }
{
    out.extend(b"\n/* The inboxes, and what was read of them. */\n")?;
    inboxes_of(out, t, file.regime, &file.names, &file.links.senders)?;
    answers_of(out, file.regime, &file.names, &file.links.answerers)?;
    posted_by(out, t, file.regime, &file.names, &file.links.receivers)
}

fn control(regime: Regime) -> &'static [u8]
    ensures { result.now ≡ control_text regime }
{
    match regime {
        Regime::Pressing => b"static bool sent;\nstatic bool executed;\n",
        Regime::Counting(_) => b"static int64_t left;\nstatic bool sent;\nstatic bool executed;\n",
        Regime::Losing => b"static int64_t executions;\nstatic int64_t sendings;\n",
    }
}

// Appends where the inputs of an activation stand, and where its outputs go.
fn pointers(out: &mut List<u8>, t: &[u8], file: &NodeFile) -> Result<(), Memory>
    ensures { OnOk result (out.new ≡ out.old ++ pointers_text t.now file.now) }
{
    let inputs = has_inputs(&file.part.sources);
    let outputs = has_items(file.part.outputs.as_slice());
    three_if(out, inputs, b"static const ", t, b"_inputs *in;\n")?;
    three_if(out, outputs, b"static ", t, b"_outputs *out;\n")
}

fn controller(out: &mut List<u8>, t: &[u8], file: &NodeFile) -> Result<(), Memory>
    ensures { OnOk result (out.new ≡ out.old ++ controller_text t.now file.now) }
{
    out.extend(
        b"\n/* The controller. */\nstatic int64_t did;\nstatic bool more;\nstatic int64_t phase;\n",
    )?;
    out.extend(control(file.regime))?;
    pointers(out, t, file)
}

/// Appends all variables of a file.
pub fn variables(out: &mut List<u8>, t: &[u8], file: &NodeFile) -> Result<(), Memory>
    ensures { OnOk result (out.new ≡ out.old ++ variables_text t.now file.now) }
{
    slots(out, file)?;
    inboxes(out, t, file)?;
    controller(out, t, file)
}
