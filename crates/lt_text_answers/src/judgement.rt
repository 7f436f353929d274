// The texts of what is told of a run and of a schedule.
ghost use Rattle.std.specs.Prelude.{◌≡◌, ◌++◌, ◌∷◌, [], IfOk, OnOk};
ghost use Rattle.std.specs.Fmt.{decimal};
ghost use Rattle.lt_text_answers.specs.Texts.{audited_text, executes_text, miss_text, watched_text};

use lt_arch::Shape;
use lt_audit::Miss;
use lt_base::{List, Memory, append_number};
use lt_inspect::Audited;
use lt_text_lines::{append_channel, append_node_name};
use lt_watch::Watched;
use std::alloc::Global;

/// What an observer makes of a run.
pub(crate) fn watched_text(alloc: Global, watched: Watched) -> Result<List<u8>, Memory>
    ensures { IfOk result (λ text. text ≡ watched_text watched) }
{
    match watched {
        Watched::Holds(instants) => number_line(alloc, b"holds ", instants),
        Watched::Fails(instant) => number_line(alloc, b"fails at ", instant),
    }
}

// Some text, a number and a line feed.
fn number_line(alloc: Global, text: &[u8], number: usize) -> Result<List<u8>, Memory>
    ensures { IfOk result (λ line. line ≡ text.now ++ decimal number ++ 10 ∷ []) }
{
    let mut line = List::new(alloc);
    append_numbered(&mut line, text, number)?;
    Ok(line)
}

fn append_numbered(line: &mut List<u8>, text: &[u8], number: usize) -> Result<(), Memory>
    ensures { OnOk result (line.new ≡ line.old ++ text.now ++ decimal number ++ 10 ∷ []) }
{
    line.extend(text)?;
    append_number(line, number)?;
    line.extend(b"\n")
}

/// The first event of a schedule at which a node executes with a message too few or too many, or that there is none.
pub(crate) fn audited_text(alloc: Global, audited: &Audited) -> Result<List<u8>, Memory>
    ensures { IfOk result (λ text. text ≡ audited_text audited.now) }
{
    match audited.miss {
        Some(miss) => miss_text(alloc, &audited.shape, miss),
        None => number_line(alloc, b"clean ", audited.events as usize),
    }
}

fn miss_text(alloc: Global, shape: &Shape, miss: Miss) -> Result<List<u8>, Memory>
    ensures { IfOk result (λ text. text ≡ miss_text shape.now miss) }
{
    let mut text = List::new(alloc);
    append_event(&mut text, shape, miss)?;
    Ok(text)
}

// Appends the event at which a node executes with a message too few or too many.
fn append_event(text: &mut List<u8>, shape: &Shape, miss: Miss) -> Result<(), Memory>
    ensures { OnOk result (text.new ≡ text.old ++ miss_text shape.now miss) }
{
    text.extend(b"event ")?;
    append_number(text, miss.event)?;
    text.extend(b": ")?;
    append_node_name(text, shape, miss.node)?;
    append_miss(text, shape, miss)
}

// Appends what is executed, and with how many messages of which channel.
fn append_miss(text: &mut List<u8>, shape: &Shape, miss: Miss) -> Result<(), Memory>
    ensures { OnOk result (text.new ≡ text.old ++ executes_text shape.now miss) }
{
    text.extend(b" executes ")?;
    append_number(text, miss.instant)?;
    text.extend(b" with ")?;
    append_number(text, miss.delivered)?;
    text.extend(b" of")?;
    append_channel(text, shape, miss.channel)?;
    text.extend(b"\n")
}
