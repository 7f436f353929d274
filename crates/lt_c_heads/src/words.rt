// Pieces of text.

ghost use Rattle.std.specs.Prelude.{◌≡◌, ◌++◌, IfOk, OnOk};
ghost use Rattle.std.specs.List.{flat_map};
ghost use Rattle.lt_base.specs.Value.{ty_of};
ghost use Rattle.lt_c_heads.specs.Types.{is_given, has_inputs, has_items};
ghost use Rattle.lt_c_heads.specs.Words.{text_if, type_word, type_word_at, title};

use crate::file::NodeFile;
use lt_base::{Decl, List, Memory, Ty, Value};
use lt_c::node_name;
use lt_c_step::Source;
use std::alloc::Global;

/// Appends two flat_map.
pub fn two(out: &mut List<u8>, a: &[u8], b: &[u8]) -> Result<(), Memory>
    ensures { OnOk result (out.new ≡ out.old ++ (a.now ++ b.now)) }
{
    out.extend(a)?;
    out.extend(b)
}

/// Appends three flat_map.
pub fn three(out: &mut List<u8>, a: &[u8], b: &[u8], c: &[u8]) -> Result<(), Memory>
    ensures { OnOk result (out.new ≡ out.old ++ (a.now ++ (b.now ++ c.now))) }
{
    out.extend(a)?;
    out.extend(b)?;
    out.extend(c)
}

/// Appends four flat_map.
pub fn four(out: &mut List<u8>, a: &[u8], b: &[u8], c: &[u8], d: &[u8]) -> Result<(), Memory>
    ensures { OnOk result (out.new ≡ out.old ++ (a.now ++ (b.now ++ (c.now ++ d.now)))) }
{
    two(out, a, b)?;
    two(out, c, d)
}

/// Appends three flat_map where they are wanted.
pub fn three_if(
    out: &mut List<u8>,
    wanted: bool,
    a: &[u8],
    b: &[u8],
    c: &[u8],
) -> Result<(), Memory>
    ensures { OnOk result (out.new ≡ out.old ++ text_if wanted (a.now ++ (b.now ++ c.now))) }
{
    if wanted {
        return three(out, a, b, c);
    }
    Ok(())
}

/// Appends a text where it is wanted.
pub fn one_if(out: &mut List<u8>, wanted: bool, a: &[u8]) -> Result<(), Memory>
    ensures { OnOk result (out.new ≡ out.old ++ text_if wanted a.now) }
{
    if wanted {
        return out.extend(a);
    }
    Ok(())
}

/// A type, up to the name of what has it.
pub fn type_word(ty: Ty) -> &'static [u8]
    ensures { result.now ≡ type_word ty }
{
    match ty {
        Ty::Int => b"int64_t ",
        Ty::Bool => b"bool ",
    }
}

/// The type of a value.
pub fn type_of(v: Value) -> Ty
    ensures { result ≡ ty_of v }
{
    match v {
        Value::Int(_) => Ty::Int,
        Value::Bool(_) => Ty::Bool,
    }
}

/// The type of a declared variable, and of another number nothing.
pub(crate) fn type_word_at(decls: &[Decl], x: u32) -> &[u8]
    ensures { result.now ≡ type_word_at decls.now x }
{
    if (x as usize) < decls.len() {
        type_word(decls[x as usize].ty)
    } else {
        b""
    }
}

fn is_given(source: &Source) -> bool
    ensures { result ≡ is_given source.now }
{
    match source {
        Source::Given(_) => true,
        Source::Arrived(_, _) => false,
    }
}

/// Whether a part has inputs of the program.
pub fn has_inputs(sources: &[Source]) -> bool
    ensures { result ≡ has_inputs sources.now }
{
    sources.iter().any(|source| is_given(source))
}

/// Whether something stands in a list.
pub fn has_items<T>(items: &[T]) -> bool
    ensures { result ≡ has_items items.now }
{
    !items.is_empty()
}

/// What begins all names of a node that other files see.
pub fn title(alloc: Global, file: &NodeFile) -> Result<List<u8>, Memory>
    ensures { IfOk result (λ t. t ≡ title file.now) }
{
    let mut out = List::new(alloc);
    two(&mut out, b"ltta_", node_name(&file.names, file.node))?;
    Ok(out)
}
