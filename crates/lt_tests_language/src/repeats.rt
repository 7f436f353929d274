// Texts with parts that are repeated.

use crate::texts::add;
use lt_base::Memory;
use std::alloc::Global;

/// The bytes of a text in which `{N*PART}` stands for the part N times, with `#` in it for the numbers from 0 on and `@` for those
/// from 1 on.
pub fn spread(alloc: Global, text: &str) -> Result<Vec<u8>, Memory> {
    let mut written = Vec::new(alloc);
    for piece in text.split('{') {
        add_piece(alloc, &mut written, piece)?;
    }
    Ok(written)
}

// Adds a text in which at most the first part is one that is repeated: `N*PART}` stands before it.
fn add_piece(alloc: Global, written: &mut Vec<u8>, piece: &str) -> Result<(), Memory> {
    match piece.split_once('}') {
        Some((times, rest)) => {
            add_times(alloc, written, times)?;
            add(written, rest)
        }
        None => add(written, piece),
    }
}

// Adds a part that is written as `N*PART`.
fn add_times(alloc: Global, written: &mut Vec<u8>, times: &str) -> Result<(), Memory> {
    let Some((count, part)) = times.split_once('*') else {
        return Err(Memory);
    };
    let Ok(count) = count.parse::<u32>() else {
        return Err(Memory);
    };
    for k in 0..count {
        add_numbered(alloc, written, part, k)?;
    }
    Ok(())
}

// Adds a part, with this number and the next one.
fn add_numbered(alloc: Global, written: &mut Vec<u8>, part: &str, k: u32) -> Result<(), Memory> {
    for letter in part.bytes() {
        match letter {
            b'#' => add_number(alloc, written, k)?,
            b'@' => add_number(alloc, written, k.saturating_add(1))?,
            _ => written.push(letter)?,
        }
    }
    Ok(())
}

fn add_number(alloc: Global, written: &mut Vec<u8>, number: u32) -> Result<(), Memory> {
    let digits = format!(in alloc; "{number}")?;
    written.extend_from_slice(digits.as_str().as_bytes())?;
    Ok(())
}
