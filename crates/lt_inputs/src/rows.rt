// Records as the header and the rows of a table.
ghost use Rattle.std.specs.Prelude.{◌≡◌, ◌<◌, ◌+◌, ◌^◌, [], Ok, Err, IfOk, MatchOption, if◌then◌else◌, length, slice_index_or};
ghost use Rattle.csv.specs.Records.{fields_of};
ghost use Rattle.lt_base.specs.Digits.{number_of};
ghost use Rattle.lt_base.specs.Limits.{most_rows};
ghost use Rattle.lt_inputs.specs.Inputs.{header_of, instant_and_values, is_this_number, is_text, row_of, same_fields};
ghost use Rattle.lt_inputs.specs.Told.{Fills};

use crate::fault::InputKind;
use crate::records::{field, is_text};
use crate::values::value;
use csv::ByteRecord;
use lt_base::{Decl, Memory, Or, Value, number_up_to};

/// Whether a record is the header of a table with these inputs.
pub fn is_header(row: &ByteRecord, ins: &[Decl]) -> bool
    requires { length ins.now < 2 ^ 32 }
    ensures { result ≡ same_fields (fields_of row.now) (header_of ins.now) }
{
    if row.len() != ins.len() + 1 || field(row, 0) != b"instant".as_slice() {
        return false;
    }
    for (i, input) in ins.iter().enumerate() {
        if field(row, i + 1) != input.name.as_str().as_bytes() {
            return false;
        }
    }
    true
}

/// Reads the row of number `n + 1`. Its values take the place of those that stood there.
pub fn read_row(
    row: &ByteRecord,
    ins: &[Decl],
    n: u32,
    values: &mut Vec<Value>,
) -> Result<(), Or<InputKind>>
    requires inputs { length ins.now < 2 ^ 32 }
    requires width { length (fields_of row.now) ≡ length ins.now + 1 }
    requires rows { n < most_rows }
    ensures { Fills (row_of ins.now (n + 1) (fields_of row.now)) result values.new.items }
{
    match read_values(row, ins, n, values)? {
        None => Ok(()),
        Some(kind) => Err(Or::Fault(kind_of(row, kind))),
    }
}

// Reads a row of text. Kept a function of its own in the program, where it is the inner loop.
#[inline(never)]
fn read_values(
    row: &ByteRecord,
    ins: &[Decl],
    n: u32,
    values: &mut Vec<Value>,
) -> Result<Option<InputKind>, Memory>
    requires inputs { length ins.now < 2 ^ 32 }
    requires width { length (fields_of row.now) ≡ length ins.now + 1 }
    ensures { IfOk result (λ fault. MatchOption fault
        (instant_and_values ins.now n (fields_of row.now) ≡ Ok values.new.items)
        (λ kind. instant_and_values ins.now n (fields_of row.now) ≡ Err kind)) }
{
    if !is_instant(row, n) {
        return Ok(Some(InputKind::Instant));
    }
    values.clear();
    for (i, input) in ins.iter().enumerate() {
        match value(input.ty, field(row, i + 1)) {
            Some(v) => values.push(v)?,
            None => return Ok(Some(InputKind::Value)),
        }
    }
    Ok(None)
}

// Whether the first field of a record is this instant.
fn is_instant(row: &ByteRecord, n: u32) -> bool
    requires { 0 < length (fields_of row.now) }
    ensures { result ≡ is_this_number n (number_of (slice_index_or (fields_of row.now) 0 [])) }
{
    match number_up_to(field(row, 0), u64::MAX) {
        Some(instant) => instant == u64::from(n),
        None => false,
    }
}

// The kind of a fault in a record, which is no row at all where it is no text.
fn kind_of(row: &ByteRecord, kind: InputKind) -> InputKind
    ensures { result ≡ (if is_text (fields_of row.now) then kind else InputKind.NotCsv) }
{
    if is_text(row) {
        kind
    } else {
        InputKind::NotCsv
    }
}
