// An activation of a node.

ghost use Rattle.std.specs.Prelude.{◌≡◌, ◌++◌, ◌<◌, ◌^◌, length, IfOk, OnOk, codes};
ghost use Rattle.lt_c.specs.Tree.{Statement, perform};
ghost use Rattle.lt_c.specs.Views.{statement_of};
ghost use Rattle.lt_c.specs.Uses.{calls_and};
ghost use Rattle.lt_c_heads.specs.Words.{made_from};
ghost use Rattle.lt_c_heads.specs.Types.{has_inputs, has_items};
ghost use Rattle.lt_c_heads.specs.Heads.{activate_head};
ghost use Rattle.lt_c_bodies.specs.Acts.{peer_numbers, post_of, posts_of, acting, activation, file_calls, pointing_text, placing_text, deed_case_text, deed_text, activate_text};

use crate::statements::statement;
use lt_base::{List, Memory};
use lt_c::{Action, Calls, action_calls, calls_and};
use lt_c_control::{Post, counting, losing, pressure};
use lt_c_heads::words::{four, has_inputs, has_items, one_if, three};
use lt_c_heads::{Carried, NodeFile, Peer, Regime, activate_head};
use lt_c_step::{keeps_calls, lets_calls};
use std::alloc::Global;

fn numbers_of(alloc: Global, peers: &[Peer]) -> Result<List<u32>, Memory>
    ensures { IfOk result (λ all. all ≡ peer_numbers peers.now) }
{
    let mut all = List::new(alloc);
    'peers: for peer in peers {
        all.push(peer.number)?;
    }
    Ok(all)
}

fn post_of(j: u32, k: usize, value: &Carried) -> Post
    requires { k < 2 ^ 32 }
    ensures { result ≡ post_of j k value.now }
{
    Post {
        to_node: j,
        at_place: k as u32,
        from_slot: value.from_slot,
    }
}

// Appends the values that are sent to a node.
fn post(posts: &mut List<Post>, j: u32, values: &[Carried]) -> Result<(), Memory>
    requires few { length values.now < 2 ^ 32 }
    ensures { OnOk result (posts.new ≡ posts.old ++ made_from (post_of j) 0 values.now) }
{
    'values: for (k, value) in values.iter().enumerate() {
        posts.push(post_of(j, k, value))?;
    }
    Ok(())
}

fn posts_of(alloc: Global, peers: &[Peer]) -> Result<List<Post>, Memory>
    ensures { IfOk result (λ all. all ≡ posts_of peers.now) }
{
    let mut all = List::new(alloc);
    'peers: for peer in peers {
        post(&mut all, peer.number, &peer.values)?;
    }
    Ok(all)
}

fn act_by(
    alloc: Global,
    regime: Regime,
    ins: &[u32],
    acks: &[u32],
    posts: &[Post],
) -> Result<Action, Memory>
    ensures { IfOk result (λ s. (run : Statement) → statement_of run s ≡ acting regime ins.now acks.now posts.now (perform run)) }
{
    match regime {
        Regime::Pressing => pressure(alloc, ins, acks),
        Regime::Counting(time) => counting(alloc, ins, time.send, time.execute),
        Regime::Losing => losing(alloc, ins, acks, posts),
    }
}

/// What an activation does.
pub fn activation(alloc: Global, file: &NodeFile) -> Result<Action, Memory>
    ensures { IfOk result (λ s. (run : Statement) → statement_of run s ≡ activation file.now run) }
{
    let ins = numbers_of(alloc, &file.links.senders)?;
    let posts = posts_of(alloc, &file.links.receivers)?;
    act_by(alloc, file.regime, &ins, &file.links.answerers, &posts)
}

/// Which functions at the head the file calls, whose activation is given.
pub fn file_calls(file: &NodeFile, acts: &Action) -> Calls
    requires { (run : Statement) → statement_of run acts.now ≡ activation file.now run }
    ensures { result ≡ file_calls file.now }
{
    let own = calls_and(keeps_calls(&file.part.code.keeps), action_calls(acts));
    calls_and(lets_calls(&file.part.code.lets), own)
}

fn opening(out: &mut List<u8>, t: &[u8], file: &NodeFile) -> Result<(), Memory>
    ensures { OnOk result (out.new ≡ out.old ++ (codes "\n" ++ (activate_head t.now file.now ++ codes "\n{\n"))) }
{
    out.extend(b"\n")?;
    activate_head(out, t, file)?;
    out.extend(b"\n{\n")
}

// Appends where the inputs of an activation stand, and where its outputs go.
fn placing_pointers(out: &mut List<u8>, file: &NodeFile) -> Result<(), Memory>
    ensures { OnOk result (out.new ≡ out.old ++ pointing_text file.now) }
{
    let inputs = has_inputs(&file.part.sources);
    let outputs = has_items(file.part.outputs.as_slice());
    one_if(out, inputs, b"    in = inputs;\n")?;
    one_if(out, outputs, b"    out = outputs;\n")
}

// Appends that what an activation gets is put where its statements find it.
fn placing(out: &mut List<u8>, file: &NodeFile) -> Result<(), Memory>
    ensures { OnOk result (out.new ≡ out.old ++ placing_text file.now) }
{
    out.extend(b"    more = has_inputs;\n")?;
    placing_pointers(out, file)
}

// Appends that the deed of this number is told under this name.
fn deed_case(out: &mut List<u8>, t: &[u8], number: &[u8], name: &[u8]) -> Result<(), Memory>
    ensures { OnOk result (out.new ≡ out.old ++ deed_case_text t.now number.now name.now) }
{
    three(
        out,
        b"    if (did == INT64_C(",
        number,
        b")) {\n        deed = ",
    )?;
    three(out, t, name, b";\n    }\n")
}

// Appends what an activation tells.
fn deed(out: &mut List<u8>, t: &[u8]) -> Result<(), Memory>
    ensures { OnOk result (out.new ≡ out.old ++ deed_text t.now) }
{
    four(out, b"    ", t, b"_deed deed = ", t)?;
    out.extend(b"_did_nothing;\n")?;
    deed_case(out, t, b"1", b"_did_execute")?;
    deed_case(out, t, b"2", b"_did_send")?;
    out.extend(b"    return deed;\n")
}

/// Appends the function of an activation, whose statement is given.
pub fn activate(
    alloc: Global,
    out: &mut List<u8>,
    t: &[u8],
    file: &NodeFile,
    acts: &Action,
) -> Result<(), Memory>
    requires { (run : Statement) → statement_of run acts.now ≡ activation file.now run }
    ensures { OnOk result (out.new ≡ out.old ++ activate_text t.now file.now) }
{
    opening(out, t, file)?;
    placing(out, file)?;
    statement(alloc, out, file, acts)?;
    deed(out, t)?;
    out.extend(b"}\n")
}
