// Pieces of text: templates, and names that stand between tags.
ghost use Rattle.std.specs.Prelude.{◌≡◌, ◌++◌, OnOk};
ghost use Rattle.lt_svg.specs.Pieces.{filled_template, safe_byte, escaped};

use lt_base::{List, Memory, append_number};

/// Appends a template, in which each `%` stands for the next of these numbers. Past the last of them it stays.
///
/// # Errors
///
/// When memory is short. What was appended till then stays: so it is with all writers of this crate.
pub fn fill(out: &mut List<u8>, template: &[u8], numbers: &[u64]) -> Result<(), Memory>
    ensures { OnOk result (out.new ≡ out.old ++ filled_template template.now numbers.now) }
{
    let mut next = 0;
    'bytes: for byte in template {
        if *byte == b'%' && next < numbers.len() {
            append_number(out, numbers[next])?;
            next += 1;
        } else {
            out.push(*byte)?;
        }
    }
    Ok(())
}

/// Appends a text that is to stand between tags.
pub fn escape(out: &mut List<u8>, text: &[u8]) -> Result<(), Memory>
    ensures { OnOk result (out.new ≡ out.old ++ escaped text.now) }
{
    'bytes: for byte in text {
        escape_byte(out, *byte)?;
    }
    Ok(())
}

fn escape_byte(out: &mut List<u8>, byte: u8) -> Result<(), Memory>
    ensures { OnOk result (out.new ≡ out.old ++ safe_byte byte) }
{
    if byte == b'&' {
        return out.extend(b"&amp;");
    }
    if byte == b'<' {
        return out.extend(b"&lt;");
    }
    if byte == b'>' {
        return out.extend(b"&gt;");
    }
    if byte == b'"' {
        return out.extend(b"&quot;");
    }
    // XML has no form for most of the bytes below a space
    out.push(if byte < b' ' { b'?' } else { byte })
}

/// Appends a text that is to stand between tags, between two others.
pub fn enclosed(out: &mut List<u8>, before: &[u8], text: &[u8], after: &[u8]) -> Result<(), Memory>
    ensures { OnOk result (out.new ≡ out.old ++ (before.now ++ (escaped text.now ++ after.now))) }
{
    out.extend(before)?;
    escape(out, text)?;
    out.extend(after)
}
