// The types that a file declares.

ghost use Rattle.std.specs.Prelude.{◌≡◌, ◌++◌, OnOk, codes};
ghost use Rattle.std.specs.List.{flat_map};
ghost use Rattle.lt_c_heads.specs.Words.{texts_from};
ghost use Rattle.lt_c_heads.specs.Types.{deed_type_text, input_member_text, inputs_struct_text, inputs_type_text, flag_member_text, output_member_text, outputs_struct_text, outputs_type_text, mark_text, meant_text, carried_text, message_struct_text, sent_type_text, got_type_text, file_types_text};

use crate::file::{Carried, NodeFile, Peer, Regime};
use crate::words::{four, has_inputs, has_items, three, two, type_of, type_word, type_word_at};
use lt_base::{Clock, Decl, List, Memory, Name};
use lt_c::{name_in, node_name, number};
use lt_c_step::{Output, Source};

fn deed_type(out: &mut List<u8>, t: &[u8]) -> Result<(), Memory>
    ensures { OnOk result (out.new ≡ out.old ++ deed_type_text t.now) }
{
    three(
        out,
        b"\n/* What an activation did. */\ntypedef enum {\n    ",
        t,
        b"_did_nothing = 0,\n    ",
    )?;
    two(out, t, b"_did_execute = 1,\n    ")?;
    two(out, t, b"_did_send = 2\n} ")?;
    two(out, t, b"_deed;\n")
}

// Appends a member of a struct: its type, a text before its name, and its name.
fn named_member(out: &mut List<u8>, ty: &[u8], before: &[u8], name: &[u8]) -> Result<(), Memory>
    ensures { OnOk result (out.new ≡ out.old ++ (codes "    " ++ (ty.now ++ (before.now ++ (name.now ++ codes ";\n"))))) }
{
    two(out, b"    ", ty)?;
    three(out, before, name, b";\n")
}

fn input_member(out: &mut List<u8>, decls: &[Decl], source: Source) -> Result<(), Memory>
    ensures { OnOk result (out.new ≡ out.old ++ input_member_text decls.now source) }
{
    match source {
        Source::Given(x) => named_member(out, type_word_at(decls, x), b"in_", name_in(decls, x)),
        Source::Arrived(_, _) => Ok(()),
    }
}

fn input_members(out: &mut List<u8>, decls: &[Decl], sources: &[Source]) -> Result<(), Memory>
    ensures { OnOk result (out.new ≡ out.old ++ flat_map (input_member_text decls.now) sources.now) }
{
    'sources: for source in sources {
        input_member(out, decls, *source)?;
    }
    Ok(())
}

fn inputs_struct(
    out: &mut List<u8>,
    t: &[u8],
    decls: &[Decl],
    sources: &[Source],
) -> Result<(), Memory>
    ensures { OnOk result (out.new ≡ out.old ++ inputs_struct_text t.now decls.now sources.now) }
{
    out.extend(b"\n/* The inputs of an instant. */\ntypedef struct {\n")?;
    input_members(out, decls, sources)?;
    three(out, b"} ", t, b"_inputs;\n")
}

fn inputs_type(
    out: &mut List<u8>,
    t: &[u8],
    decls: &[Decl],
    sources: &[Source],
) -> Result<(), Memory>
    ensures { OnOk result (out.new ≡ out.old ++ inputs_type_text t.now decls.now sources.now) }
{
    if has_inputs(sources) {
        return inputs_struct(out, t, decls, sources);
    }
    Ok(())
}

// Appends the member that tells whether an output of a clock has a value.
fn flag_member(out: &mut List<u8>, clock: &Clock, name: &[u8]) -> Result<(), Memory>
    ensures { OnOk result (out.new ≡ out.old ++ flag_member_text clock.now name.now) }
{
    if clock.steps.is_empty() {
        return Ok(());
    }
    three(out, b"    bool has_", name, b";\n")
}

fn output_member(out: &mut List<u8>, decls: &[Decl], output: &Output) -> Result<(), Memory>
    ensures { OnOk result (out.new ≡ out.old ++ output_member_text decls.now output.now) }
{
    let name = name_in(decls, output.output_number);
    flag_member(out, &output.guard, name)?;
    named_member(out, type_word_at(decls, output.from_slot), b"out_", name)
}

fn output_members(out: &mut List<u8>, decls: &[Decl], outputs: &[Output]) -> Result<(), Memory>
    ensures { OnOk result (out.new ≡ out.old ++ flat_map (output_member_text decls.now) outputs.now) }
{
    'outputs: for output in outputs {
        output_member(out, decls, output)?;
    }
    Ok(())
}

fn outputs_struct(
    out: &mut List<u8>,
    t: &[u8],
    decls: &[Decl],
    outputs: &[Output],
) -> Result<(), Memory>
    ensures { OnOk result (out.new ≡ out.old ++ outputs_struct_text t.now decls.now outputs.now) }
{
    out.extend(
        b"\n/* The outputs of an instant. One that has no value at each instant has one where its has_ is true. */\ntypedef struct {\n",
    )?;
    output_members(out, decls, outputs)?;
    three(out, b"} ", t, b"_outputs;\n")
}

fn outputs_type(
    out: &mut List<u8>,
    t: &[u8],
    decls: &[Decl],
    outputs: &[Output],
) -> Result<(), Memory>
    ensures { OnOk result (out.new ≡ out.old ++ outputs_type_text t.now decls.now outputs.now) }
{
    if has_items(outputs) {
        return outputs_struct(out, t, decls, outputs);
    }
    Ok(())
}

fn mark(regime: Regime) -> &'static [u8]
    ensures { result.now ≡ mark_text regime }
{
    match regime {
        Regime::Pressing | Regime::Counting(_) => b"    bool bit;\n",
        Regime::Losing => b"    int64_t number;\n",
    }
}

// Appends the end of a value's line.
fn meant(out: &mut List<u8>, name: &[u8]) -> Result<(), Memory>
    ensures { OnOk result (out.new ≡ out.old ++ meant_text name.now) }
{
    if name.is_empty() {
        return out.extend(b";\n");
    }
    three(out, b"; /* ", name, b" */\n")
}

fn carried(out: &mut List<u8>, k: usize, value: &Carried) -> Result<(), Memory>
    ensures { OnOk result (out.new ≡ out.old ++ carried_text k value.now) }
{
    three(out, b"    ", type_word(type_of(value.first)), b"m")?;
    number(out, k as u64)?;
    meant(out, value.meant.as_str().as_bytes())
}

fn carried_all(out: &mut List<u8>, values: &[Carried]) -> Result<(), Memory>
    ensures { OnOk result (out.new ≡ out.old ++ texts_from carried_text 0 values.now) }
{
    'values: for (k, value) in values.iter().enumerate() {
        carried(out, k, value)?;
    }
    Ok(())
}

fn message_struct(out: &mut List<u8>, regime: Regime, values: &[Carried]) -> Result<(), Memory>
    ensures { OnOk result (out.new ≡ out.old ++ message_struct_text regime values.now) }
{
    two(out, b"typedef struct {\n", mark(regime))?;
    carried_all(out, values)?;
    out.extend(b"} ")
}

fn sent_type(
    out: &mut List<u8>,
    t: &[u8],
    regime: Regime,
    names: &[Name],
    peer: &Peer,
) -> Result<(), Memory>
    ensures { OnOk result (out.new ≡ out.old ++ sent_type_text t.now regime names.now peer.now) }
{
    let name = node_name(names, peer.number);
    three(out, b"\n/* A message to ", name, b". */\n")?;
    message_struct(out, regime, &peer.values)?;
    four(out, t, b"_to_", name, b";\n")
}

fn got_type(
    out: &mut List<u8>,
    t: &[u8],
    regime: Regime,
    names: &[Name],
    peer: &Peer,
) -> Result<(), Memory>
    ensures { OnOk result (out.new ≡ out.old ++ got_type_text t.now regime names.now peer.now) }
{
    let name = node_name(names, peer.number);
    three(out, b"\n/* A message from ", name, b". */\n")?;
    message_struct(out, regime, &peer.values)?;
    four(out, t, b"_from_", name, b";\n")
}

fn sent_types(
    out: &mut List<u8>,
    t: &[u8],
    regime: Regime,
    names: &[Name],
    peers: &[Peer],
) -> Result<(), Memory>
    ensures { OnOk result (out.new ≡ out.old ++ flat_map (sent_type_text t.now regime names.now) peers.now) }
{
    'peers: for peer in peers {
        sent_type(out, t, regime, names, peer)?;
    }
    Ok(())
}

fn got_types(
    out: &mut List<u8>,
    t: &[u8],
    regime: Regime,
    names: &[Name],
    peers: &[Peer],
) -> Result<(), Memory>
    ensures { OnOk result (out.new ≡ out.old ++ flat_map (got_type_text t.now regime names.now) peers.now) }
{
    'peers: for peer in peers {
        got_type(out, t, regime, names, peer)?;
    }
    Ok(())
}

/// Appends all types of a file.
pub(crate) fn declared_types(out: &mut List<u8>, t: &[u8], file: &NodeFile) -> Result<(), Memory>
    ensures { OnOk result (out.new ≡ out.old ++ file_types_text t.now file.now) }
{
    deed_type(out, t)?;
    inputs_type(out, t, &file.part.decls, &file.part.sources)?;
    outputs_type(out, t, &file.part.decls, &file.part.outputs)?;
    sent_types(out, t, file.regime, &file.names, &file.links.receivers)?;
    got_types(out, t, file.regime, &file.names, &file.links.senders)
}
