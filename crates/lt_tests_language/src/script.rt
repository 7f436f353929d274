// Scripts of questions.
//
// A line `> WORD TEXT` asks something of a text, and the line below it is the whole answer: `=`, and its parts, a blank before
// each. A line `- WORDS` says what is shown.

use crate::answers::answer;
use std::alloc::Global;
use std::process::Abort;

/// A line of a script, its first word, and what stands behind that.
#[derive(Clone, Copy)]
struct Line<'a> {
    whole: &'a str,
    key: &'a str,
    text: &'a str,
}

/// Every question of the script has to have its answer.
pub fn holds<R: Abort>(rt: &R, alloc: Global, script: &str) {
    let mut before = cut("-");
    for line in script.lines() {
        let line = cut(line);
        follows(rt, alloc, before, line);
        before = line;
    }
    follows(rt, alloc, before, cut("-"));
}

fn cut(line: &str) -> Line {
    let (key, text) = line.split_once(' ').unwrap_or((line, ""));
    Line {
        whole: line,
        key,
        text,
    }
}

// A line has to be one that may stand below the one before it: below a question its answer.
fn follows<R: Abort>(rt: &R, alloc: Global, before: Line, line: Line) {
    if before.key == ">" {
        answers(rt, alloc, before.text, line.whole);
    } else {
        let is_line = line.key == ">" || line.key == "-";
        must(rt, is_line, before.whole, "there is", line.whole);
    }
}

// The question has to have this answer.
fn answers<R: Abort>(rt: &R, alloc: Global, question: &str, wanted: &str) {
    match answer(alloc, question) {
        Ok(text) => must(rt, text.as_str() == wanted, question, text.as_str(), wanted),
        Err(_) => must(rt, false, question, "no answer", wanted),
    }
}

// Stops where something is not as it has to be.
fn must<R: Abort>(rt: &R, is_right: bool, question: &str, found: &str, wanted: &str) {
    assert!(rt; is_right, "{question}: {found} and not {wanted}");
}
