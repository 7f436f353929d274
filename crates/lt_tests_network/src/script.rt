// Scripts of questions.
//
// A line `p TEXT` or `i TEXT` says what the program or its table of inputs is from there on, with `/` for a line feed. A line
// `> WORDS` asks something, and the line below it is the whole answer: `=`, and its parts, a blank before each. A line `- WORDS`
// says what is shown.

use crate::answers::answer;
use std::alloc::Global;
use std::process::Abort;

/// What is asked, of which texts. Between an answer and the next question the words are empty.
#[derive(Clone, Copy)]
pub struct Question<'a> {
    pub program: &'a str,
    pub inputs: &'a str,
    pub words: &'a str,
}

const NOTHING: Question = Question {
    program: "",
    inputs: "",
    words: "",
};

/// Every question of the script has to have its answer.
pub fn holds<R: Abort>(rt: &R, alloc: Global, script: &str) {
    let mut question = NOTHING;
    for line in script.lines() {
        question = follows(rt, alloc, question, line);
    }
    must(
        rt,
        question.words.is_empty(),
        question.words,
        "no answer",
        "one",
    );
}

// A line has to be one that may stand behind a question, its answer, or else one of another kind. Answers what is asked then.
fn follows<'a, R: Abort>(
    rt: &R,
    alloc: Global,
    question: Question<'a>,
    line: &'a str,
) -> Question<'a> {
    if !question.words.is_empty() {
        answers(rt, alloc, question, line);
        return Question {
            words: "",
            ..question
        };
    }
    let (key, text) = line.split_once(' ').unwrap_or((line, ""));
    let is_line = ["p", "i", ">", "-"].contains(&key) && !text.is_empty();
    must(rt, is_line, "a line", line, "one of a script");
    question_of(question, key, text)
}

// What is asked after a line with this key.
fn question_of<'a>(before: Question<'a>, key: &str, text: &'a str) -> Question<'a> {
    let mut question = before;
    if key == "p" {
        question.program = text;
    } else if key == "i" {
        question.inputs = text;
    } else if key == ">" {
        question.words = text;
    }
    question
}

// The question has to have this answer.
fn answers<R: Abort>(rt: &R, alloc: Global, question: Question, wanted: &str) {
    let words = question.words;
    match answer(alloc, question) {
        Ok(text) => must(rt, text.as_str() == wanted, words, text.as_str(), wanted),
        Err(_) => must(rt, false, words, "no answer", wanted),
    }
}

// Stops where something is not as it has to be.
fn must<R: Abort>(rt: &R, is_right: bool, question: &str, found: &str, wanted: &str) {
    assert!(rt; is_right, "{question}: {found} and not {wanted}");
}
