// Texts as scripts have them.

use lt_base::{List, Memory};
use std::alloc::Global;

/// The bytes of a text, in which `/` stands for a line feed, `~` for a byte that is no text, and `{N*PART}` for the part N
/// times, with `#` in it for the numbers from 0 on and `@` for those from 1 on.
pub fn bytes(alloc: Global, text: &str) -> Result<List<u8>, Memory> {
    let mut written = Vec::new(alloc);
    for piece in text.split('{') {
        add_piece(alloc, &mut written, piece)?;
    }
    Ok(List::of(written))
}

// Adds a text in which at most the first part is one that is repeated: `N*PART}` stands before it.
fn add_piece(alloc: Global, written: &mut Vec<u8>, piece: &str) -> Result<(), Memory> {
    let (times, rest) = piece.split_once('}').unwrap_or(("", piece));
    add_times(alloc, written, times)?;
    add(alloc, written, rest, 0)
}

// Adds a part that is written as `N*PART`. Line feeds may be very many.
fn add_times(alloc: Global, written: &mut Vec<u8>, times: &str) -> Result<(), Memory> {
    let (count, part) = times.split_once('*').unwrap_or(("0", times));
    let count: u32 = count.parse().unwrap_or(0);
    if part == "/" {
        return Ok(written.resize(written.len().saturating_add(count as usize), b'\n')?);
    }
    for k in 0..count {
        add(alloc, written, part, k)?;
    }
    Ok(())
}

// Adds a part, with this number and the next one.
fn add(alloc: Global, written: &mut Vec<u8>, part: &str, k: u32) -> Result<(), Memory> {
    for letter in part.bytes() {
        match letter {
            b'#' => add_number(alloc, written, k)?,
            b'@' => add_number(alloc, written, k.saturating_add(1))?,
            _ => written.push(byte_of(letter))?,
        }
    }
    Ok(())
}

fn byte_of(letter: u8) -> u8 {
    match letter {
        b'/' => b'\n',
        b'~' => 0xff,
        _ => letter,
    }
}

fn add_number(alloc: Global, written: &mut Vec<u8>, number: u32) -> Result<(), Memory> {
    let digits = format!(in alloc; "{number}")?;
    written.extend_from_slice(digits.as_str().as_bytes())?;
    Ok(())
}
