// Answers as texts.

use lt_base::Memory;
use std::alloc::Global;
use std::fmt::Debug;
use std::process::Abort;

/// A value as it is shown.
pub fn show_value<T: Debug + Drop>(alloc: Global, value: T) -> Result<String, Memory> {
    let mut text = String::new(alloc);
    write!(text, "{value:?}")?;
    Ok(text)
}

/// Stops where an answer is not this text.
pub fn is_shown<R: Abort>(rt: &R, answer: Result<String, Memory>, wanted: &str) {
    match answer {
        Ok(text) => must(rt, text.as_str() == wanted, text.as_str(), wanted),
        Err(_) => must(rt, false, "no memory", wanted),
    }
}

fn must<R: Abort>(rt: &R, is_right: bool, found: &str, wanted: &str) {
    assert!(rt; is_right, "{found} and not {wanted}");
}
