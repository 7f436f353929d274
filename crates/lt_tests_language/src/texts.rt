// Texts as scripts have them, and parts of answers.

use lt_base::Memory;
use std::alloc::Global;
use std::fmt::Debug;

// What stands in a script for a byte that it cannot have in a line: a line feed, a carriage return, and one that begins no letter.
fn byte_of(letter: u8) -> u8 {
    match letter {
        b'/' => b'\n',
        b'^' => b'\r',
        b'~' => 0xc3,
        _ => letter,
    }
}

fn letter_of(byte: u8) -> char {
    match byte {
        b'\n' => '/',
        b'\r' => '^',
        _ => char::from(byte),
    }
}

/// The bytes of a text.
pub fn bytes(alloc: Global, text: &str) -> Result<Vec<u8>, Memory> {
    let mut bytes = Vec::new(alloc);
    add(&mut bytes, text)?;
    Ok(bytes)
}

/// Adds the bytes of a text.
pub fn add(bytes: &mut Vec<u8>, text: &str) -> Result<(), Memory> {
    for letter in text.bytes() {
        bytes.push(byte_of(letter))?;
    }
    Ok(())
}

/// Appends a value as it is shown.
pub fn tell<T: Debug + Drop>(line: &mut String, value: T) -> Result<(), Memory> {
    write!(line, " {value:?}")?;
    Ok(())
}

/// Appends a word.
pub fn tell_word(line: &mut String, word: &str) -> Result<(), Memory> {
    line.push(' ')?;
    line.push_str(word)?;
    Ok(())
}

/// Appends bytes in quotes.
pub fn tell_bytes(line: &mut String, bytes: &[u8]) -> Result<(), Memory> {
    line.push_str(" \"")?;
    for byte in bytes {
        line.push(letter_of(*byte))?;
    }
    line.push('"')?;
    Ok(())
}
