// How variables and literals are written.

ghost use Rattle.std.specs.Prelude.{◌≡◌, ◌++◌, ◌<◌, OnOk, codes, decimal};
ghost use Rattle.lt_c.specs.Tree.{slot};
ghost use Rattle.lt_c.specs.Text.{name_at, behind, spelled, integer_text, c_truth_text};
ghost use Rattle.lt_c.specs.Literals.{literal_text};

use itoa::Buffer;
use lt_base::{Decl, List, Memory, Value};

/// Appends a number in decimal.
///
/// # Errors
///
/// When memory is short. What was appended till then stays: so it is with all writers of this crate.
pub fn number(out: &mut List<u8>, n: u64) -> Result<(), Memory>
    ensures { OnOk result (out.new ≡ out.old ++ decimal n) }
{
    let mut buffer = Buffer::new();
    out.extend(buffer.format(n).as_bytes())
}

/// The name of a declared variable, and of another number nothing.
pub fn name_in(decls: &[Decl], x: u32) -> &[u8]
    ensures { result.now ≡ name_at decls.now x }
{
    if (x as usize) < decls.len() {
        decls[x as usize].name.as_str().as_bytes()
    } else {
        b""
    }
}

fn after_number(out: &mut List<u8>, name: &[u8]) -> Result<(), Memory>
    ensures { OnOk result (out.new ≡ out.old ++ behind name.now) }
{
    if name.is_empty() {
        return Ok(());
    }
    out.extend(b"_")?;
    out.extend(name)
}

/// Appends a slot's variable: `v`, its number, and the name of the variable that has this number, where it has a name. Two slots differ in
/// their numbers, and no word of C begins so.
pub fn variable(out: &mut List<u8>, decls: &[Decl], x: u32) -> Result<(), Memory>
    ensures { OnOk result (out.new ≡ out.old ++ spelled decls.now (slot x)) }
{
    out.extend(b"v")?;
    number(out, u64::from(x))?;
    after_number(out, name_in(decls, x))
}

/// Appends `true` or `false`.
pub(crate) fn truth(out: &mut List<u8>, b: bool) -> Result<(), Memory>
    ensures { OnOk result (out.new ≡ out.old ++ c_truth_text b) }
{
    if b {
        out.extend(b"true")
    } else {
        out.extend(b"false")
    }
}

fn positive(out: &mut List<u8>, n: u64) -> Result<(), Memory>
    ensures { OnOk result (out.new ≡ out.old ++ (codes "INT64_C(" ++ (decimal n ++ codes ")"))) }
{
    out.extend(b"INT64_C(")?;
    number(out, n)?;
    out.extend(b")")
}

fn negative(out: &mut List<u8>, n: u64) -> Result<(), Memory>
    ensures { OnOk result (out.new ≡ out.old ++ (codes "(-INT64_C(" ++ (decimal n ++ codes "))"))) }
{
    out.extend(b"(-INT64_C(")?;
    number(out, n)?;
    out.extend(b"))")
}

/// Appends a literal of the type `int64_t`. C has none of the least number, which has a name.
pub(crate) fn integer(out: &mut List<u8>, n: i64) -> Result<(), Memory>
    ensures { OnOk result (out.new ≡ out.old ++ integer_text n) }
{
    if n >= 0 {
        return positive(out, n.unsigned_abs());
    }
    if n == i64::MIN {
        return out.extend(b"INT64_MIN");
    }
    negative(out, n.unsigned_abs())
}

/// Appends the literal of a value.
pub fn value(out: &mut List<u8>, v: Value) -> Result<(), Memory>
    ensures { OnOk result (out.new ≡ out.old ++ literal_text v) }
{
    match v {
        Value::Int(n) => integer(out, n),
        Value::Bool(b) => truth(out, b),
    }
}
