// The functions that a file defines, up to their bodies, and their declarations.

ghost use Rattle.std.specs.Prelude.{◌≡◌, ◌++◌, OnOk, codes};
ghost use Rattle.std.specs.List.{flat_map};
ghost use Rattle.lt_c_heads.specs.Heads.{init_head, inputs_parameter, outputs_parameter, activate_head, deliver_head, answer_parameter, acknowledge_head, message_head, answer_head, as_prototype, answer_prototype, prototypes_text};

use crate::file::{NodeFile, Peer, Regime};
use crate::words::{four, has_inputs, has_items, three, three_if, two};
use lt_base::{List, Memory, Name};
use lt_c::node_name;

pub fn init_head(out: &mut List<u8>, t: &[u8]) -> Result<(), Memory>
    ensures { OnOk result (out.new ≡ out.old ++ init_head t.now) }
{
    three(out, b"void ", t, b"_init(void)")
}

fn inputs_parameter(out: &mut List<u8>, t: &[u8], file: &NodeFile) -> Result<(), Memory>
    ensures { OnOk result (out.new ≡ out.old ++ inputs_parameter t.now file.now.part.sources) }
{
    three_if(
        out,
        has_inputs(&file.part.sources),
        b", const ",
        t,
        b"_inputs *inputs",
    )
}

fn outputs_parameter(out: &mut List<u8>, t: &[u8], file: &NodeFile) -> Result<(), Memory>
    ensures { OnOk result (out.new ≡ out.old ++ outputs_parameter t.now file.now.part.outputs) }
{
    three_if(
        out,
        has_items(file.part.outputs.as_slice()),
        b", ",
        t,
        b"_outputs *outputs",
    )
}

pub fn activate_head(out: &mut List<u8>, t: &[u8], file: &NodeFile) -> Result<(), Memory>
    ensures { OnOk result (out.new ≡ out.old ++ activate_head t.now file.now) }
{
    four(out, t, b"_deed ", t, b"_activate(bool has_inputs")?;
    inputs_parameter(out, t, file)?;
    outputs_parameter(out, t, file)?;
    out.extend(b")")
}

pub fn deliver_head(out: &mut List<u8>, t: &[u8], names: &[Name], peer: &Peer) -> Result<(), Memory>
    ensures { OnOk result (out.new ≡ out.old ++ deliver_head t.now names.now peer.now) }
{
    let name = node_name(names, peer.number);
    four(out, b"void ", t, b"_deliver_", name)?;
    three(out, b"(const ", t, b"_from_")?;
    two(out, name, b" *message)")
}

fn answer_parameter(regime: Regime) -> &'static [u8]
    ensures { result.now ≡ answer_parameter regime }
{
    match regime {
        Regime::Pressing | Regime::Counting(_) => b"(bool bit)",
        Regime::Losing => b"(int64_t number)",
    }
}

pub fn acknowledge_head(
    out: &mut List<u8>,
    t: &[u8],
    regime: Regime,
    names: &[Name],
    j: u32,
) -> Result<(), Memory>
    ensures { OnOk result (out.new ≡ out.old ++ acknowledge_head t.now regime names.now j) }
{
    three(out, b"void ", t, b"_acknowledge_")?;
    two(out, node_name(names, j), answer_parameter(regime))
}

pub fn message_head(out: &mut List<u8>, t: &[u8], names: &[Name], peer: &Peer) -> Result<(), Memory>
    ensures { OnOk result (out.new ≡ out.old ++ message_head t.now names.now peer.now) }
{
    let name = node_name(names, peer.number);
    four(out, b"void ", t, b"_message_", name)?;
    three(out, b"(", t, b"_to_")?;
    two(out, name, b" *message)")
}

pub fn answer_head(out: &mut List<u8>, t: &[u8], regime: Regime) -> Result<(), Memory>
    ensures { OnOk result (out.new ≡ out.old ++ answer_head t.now regime) }
{
    match regime {
        Regime::Pressing => three(out, b"bool ", t, b"_acknowledgement(void)"),
        Regime::Counting(_) => Ok(()),
        Regime::Losing => three(out, b"int64_t ", t, b"_acknowledgement(void)"),
    }
}

fn init_prototype(out: &mut List<u8>, t: &[u8]) -> Result<(), Memory>
    ensures { OnOk result (out.new ≡ out.old ++ as_prototype (init_head t.now)) }
{
    init_head(out, t)?;
    out.extend(b";\n")
}

fn activate_prototype(out: &mut List<u8>, t: &[u8], file: &NodeFile) -> Result<(), Memory>
    ensures { OnOk result (out.new ≡ out.old ++ as_prototype (activate_head t.now file.now)) }
{
    activate_head(out, t, file)?;
    out.extend(b";\n")
}

fn deliver_prototype(
    out: &mut List<u8>,
    t: &[u8],
    names: &[Name],
    peer: &Peer,
) -> Result<(), Memory>
    ensures { OnOk result (out.new ≡ out.old ++ as_prototype (deliver_head t.now names.now peer.now)) }
{
    deliver_head(out, t, names, peer)?;
    out.extend(b";\n")
}

fn deliver_prototypes(
    out: &mut List<u8>,
    t: &[u8],
    names: &[Name],
    peers: &[Peer],
) -> Result<(), Memory>
    ensures { OnOk result (out.new ≡ out.old ++ flat_map (λ p. as_prototype (deliver_head t.now names.now p)) peers.now) }
{
    'peers: for peer in peers {
        deliver_prototype(out, t, names, peer)?;
    }
    Ok(())
}

fn acknowledge_prototype(
    out: &mut List<u8>,
    t: &[u8],
    regime: Regime,
    names: &[Name],
    j: u32,
) -> Result<(), Memory>
    ensures { OnOk result (out.new ≡ out.old ++ as_prototype (acknowledge_head t.now regime names.now j)) }
{
    acknowledge_head(out, t, regime, names, j)?;
    out.extend(b";\n")
}

fn acknowledge_prototypes(
    out: &mut List<u8>,
    t: &[u8],
    regime: Regime,
    names: &[Name],
    answerers: &[u32],
) -> Result<(), Memory>
    ensures { OnOk result (out.new ≡ out.old ++ flat_map (λ j. as_prototype (acknowledge_head t.now regime names.now j)) answerers.now) }
{
    'nodes: for j in answerers {
        acknowledge_prototype(out, t, regime, names, *j)?;
    }
    Ok(())
}

fn message_prototype(
    out: &mut List<u8>,
    t: &[u8],
    names: &[Name],
    peer: &Peer,
) -> Result<(), Memory>
    ensures { OnOk result (out.new ≡ out.old ++ as_prototype (message_head t.now names.now peer.now)) }
{
    message_head(out, t, names, peer)?;
    out.extend(b";\n")
}

fn message_prototypes(
    out: &mut List<u8>,
    t: &[u8],
    names: &[Name],
    peers: &[Peer],
) -> Result<(), Memory>
    ensures { OnOk result (out.new ≡ out.old ++ flat_map (λ p. as_prototype (message_head t.now names.now p)) peers.now) }
{
    'peers: for peer in peers {
        message_prototype(out, t, names, peer)?;
    }
    Ok(())
}

fn answer_declared(out: &mut List<u8>, t: &[u8], regime: Regime) -> Result<(), Memory>
    ensures { OnOk result (out.new ≡ out.old ++ as_prototype (answer_head t.now regime)) }
{
    answer_head(out, t, regime)?;
    out.extend(b";\n")
}

fn answer_prototype(out: &mut List<u8>, t: &[u8], regime: Regime) -> Result<(), Memory>
    ensures { OnOk result (out.new ≡ out.old ++ answer_prototype t.now regime) }
{
    match regime {
        Regime::Pressing | Regime::Losing => answer_declared(out, t, regime),
        Regime::Counting(_) => Ok(()),
    }
}

// Appends the declarations of what begins and of an activation.
fn first_prototypes(out: &mut List<u8>, t: &[u8], file: &NodeFile) -> Result<(), Memory>
    ensures { OnOk result (out.new ≡ out.old ++ (codes "\n" ++ (as_prototype (init_head t.now) ++ as_prototype (activate_head t.now file.now)))) }
{
    out.extend(b"\n")?;
    init_prototype(out, t)?;
    activate_prototype(out, t, file)
}

/// Appends the declarations of all functions.
pub(crate) fn prototypes(out: &mut List<u8>, t: &[u8], file: &NodeFile) -> Result<(), Memory>
    ensures { OnOk result (out.new ≡ out.old ++ prototypes_text t.now file.now) }
{
    first_prototypes(out, t, file)?;
    deliver_prototypes(out, t, &file.names, &file.links.senders)?;
    acknowledge_prototypes(out, t, file.regime, &file.names, &file.links.answerers)?;
    message_prototypes(out, t, &file.names, &file.links.receivers)?;
    answer_prototype(out, t, file.regime)
}
