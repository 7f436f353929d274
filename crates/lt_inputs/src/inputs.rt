// The inputs file as a table.
ghost use Rattle.std.specs.Prelude.{◌≡◌, ◌≤◌, ◌<◌, ◌+◌, ◌^◌, None, Some, IfOk, length};
ghost use Rattle.csv.specs.Reading.{records, default_config, strip_bom};
ghost use Rattle.lt_base.specs.Behaviour.{RowsFit};
ghost use Rattle.lt_base.specs.Limits.{most_rows};
ghost use Rattle.lt_inputs.specs.Inputs.{inputs_of, input_table_of, input_rows_of, input_rows_from};
ghost use Rattle.lt_inputs.specs.Records.{rest_of, ReaderStands, ReadsHeader};
ghost use Rattle.lt_inputs.specs.Told.{ToldWanted, at_row};

use crate::fault::{InputFault, InputKind};
use crate::records::{Next, advance, is_text, open};
use crate::rows::{is_header, read_row};
use csv::{ByteRecord, Reader};
use lt_base::limits::MOST_ROWS;
use lt_base::{Decl, Func, Inputs, Or};
use std::alloc::Global;

/// The values of a function's inputs, from the bytes of an inputs file, or the first fault.
///
/// The file is CSV. Its header is `instant` and then the names of the inputs, in order. The row of number n, from 1,
/// has the instant n - 1 in decimal digits and a value for each input: an int as an optional `-` and decimal digits,
/// within 64 bits, or a bool as `true` or `false`. Leading zeros are accepted. Rows are judged in order.
pub fn read_inputs(alloc: Global, bytes: &[u8], main: &Func) -> Result<Inputs, Or<InputFault>>
    ensures told { ToldWanted (inputs_of main.now bytes.now) result }
    ensures width { IfOk result (λ table. table.width ≡ main.now.n_in) }
    ensures fit { IfOk result (λ table. RowsFit main.now table.rows) }
    ensures few { IfOk result (λ table. length table.rows ≤ most_rows) }
{
    main.invariant_holds();
    let ins = &main.decls[..main.n_in as usize];
    read_table(alloc, bytes, ins)
}

fn read_table(alloc: Global, bytes: &[u8], ins: &[Decl]) -> Result<Inputs, Or<InputFault>>
    requires { length ins.now < 2 ^ 32 }
    ensures { ToldWanted (input_table_of (length ins.now) (input_rows_of ins.now (records default_config (strip_bom bytes.now)))) result }
{
    let mut reader = open(alloc, bytes);
    let mut row = ByteRecord::new(alloc);
    read_header(&mut reader, &mut row, ins)?;
    read_rows(alloc, &mut reader, &mut row, ins)
}

fn read_header<'a>(
    reader: &mut Reader<&'a [u8]>,
    row: &mut ByteRecord,
    ins: &[Decl],
) -> Result<(), Or<InputFault>>
    requires inputs { length ins.now < 2 ^ 32 }
    requires stands { ReaderStands reader.old None }
    ensures { ReadsHeader ins.now reader.old result reader.new }
{
    match advance(reader, row)? {
        Next::Found => {}
        _ => return Err(at_row(0, Or::Fault(InputKind::Header))),
    }
    if !is_text(row) {
        return Err(at_row(0, Or::Fault(InputKind::NotCsv)));
    }
    if !is_header(row, ins) {
        return Err(at_row(0, Or::Fault(InputKind::Header)));
    }
    Ok(())
}

fn read_rows<'a>(
    alloc: Global,
    reader: &mut Reader<&'a [u8]>,
    row: &mut ByteRecord,
    ins: &[Decl],
) -> Result<Inputs, Or<InputFault>>
    requires inputs { length ins.now < 2 ^ 32 }
    requires stands { ReaderStands reader.old (Some (length ins.now + 1)) }
    ensures { ToldWanted (input_table_of (length ins.now) (input_rows_from ins.now 1 (rest_of reader.old))) result }
{
    let mut table = Inputs::new(alloc, ins.len() as u32)?;
    let mut values = Vec::with_capacity(alloc, ins.len())?;
    for n in 0..MOST_ROWS {
        match advance(reader, row)? {
            Next::End => return Ok(table),
            Next::OtherLength => return Err(at_row(n + 1, Or::Fault(InputKind::NotCsv))),
            Next::Found => {}
        }
        if let Err(fault) = read_row(row, ins, n, &mut values) {
            return Err(at_row(n + 1, fault));
        }
        table.push(&values)?;
    }
    match advance(reader, row)? {
        Next::End => Ok(table),
        _ => Err(at_row(MOST_ROWS + 1, Or::Fault(InputKind::TooMany))),
    }
}

// A fault of a row, unless no memory was found.
fn at_row(row: u32, fault: Or<InputKind>) -> Or<InputFault>
    ensures { result ≡ at_row row fault }
{
    match fault {
        Or::Fault(kind) => Or::Fault(InputFault { row, kind }),
        Or::Memory => Or::Memory,
    }
}
