// The records of a CSV text, one at a time.
ghost use Rattle.std.specs.Prelude.{◌≡◌, ◌<◌, ℕ, [], Option, None, IfOk, OnOk, OnErr, length, slice_index_or};
ghost use Rattle.std.specs.Str.{is_utf8};
ghost use Rattle.csv.specs.Reading.{records, default_config, strip_bom, error_kind, NotLengths};
ghost use Rattle.csv.specs.Records.{fields_of};
ghost use Rattle.lt_inputs.specs.Inputs.{is_text};
ghost use Rattle.lt_inputs.specs.Records.{rest_of, ReaderStands, ReaderAdvances};

use csv::{ByteRecord, Error, ErrorKind, Reader, ReaderBuilder};
use lt_base::Memory;
use std::alloc::Global;

/// What a read found.
#[derive(Clone, Copy)]
pub enum Next {
    /// A record as long as the one before.
    Found,
    /// A record of another length.
    OtherLength,
    /// The end of the text.
    End,
}

/// A reader of the records of some bytes.
pub fn open<'a>(alloc: Global, bytes: &'a [u8]) -> Reader<&'a [u8]>
    ensures stands { ReaderStands result None }
    ensures rest { rest_of result ≡ records default_config (strip_bom bytes.entry.now) }
{
    ReaderBuilder::new()
        .has_headers(false)
        .from_reader(alloc, bytes)
}

/// Reads the next record. A slice of bytes gives no other error than a want of memory.
pub fn advance<'a>(reader: &mut Reader<&'a [u8]>, row: &mut ByteRecord) -> Result<Next, Memory>
    ensures { IfOk result (λ next. (width : Option ℕ) → ReaderStands reader.old width → ReaderAdvances reader.old width next reader.new (fields_of row.new)) }
{
    match reader.read_byte_record(row) {
        Ok(true) => Ok(Next::Found),
        Ok(false) => Ok(Next::End),
        Err(error) => next_of_error(&error),
    }
}

// What an error says of a record: it has another length, or no memory was found.
fn next_of_error(error: &Error) -> Result<Next, Memory>
    ensures other { IfOk result (λ next. next ≡ Next.OtherLength) }
    ensures lengths { OnOk result (¬ NotLengths (error_kind error.now)) }
    ensures memory { OnErr result (NotLengths (error_kind error.now)) }
{
    match error.kind() {
        ErrorKind::UnequalLengths { .. } => Ok(Next::OtherLength),
        _ => Err(Memory),
    }
}

/// The field at a place.
pub fn field(row: &ByteRecord, place: usize) -> &[u8]
    requires { place < length (fields_of row.now) }
    ensures { result.now ≡ slice_index_or (fields_of row.now) place [] }
{
    match row.get(place) {
        Some(field) => field,
        None => b"",
    }
}

/// Whether each field is text.
pub fn is_text(row: &ByteRecord) -> bool
    ensures { result ≡ is_text (fields_of row.now) }
{
    for place in 0..row.len() {
        if !is_utf8(field(row, place)) {
            return false;
        }
    }
    true
}

fn is_utf8(bytes: &[u8]) -> bool
    ensures { result ≡ is_utf8 bytes.now }
{
    match str::from_utf8(bytes) {
        Ok(_) => true,
        Err(_) => false,
    }
}
