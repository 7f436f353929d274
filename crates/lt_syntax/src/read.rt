// One pass over the bytes.
ghost use Rattle.std.specs.Prelude.{◌≡◌, ◌↔◌, ℕ, List, IsTrue};
ghost use Rattle.lt_base.specs.Limits.{greatest_height};
ghost use Rattle.lt_tokens.specs.Text as text;
ghost use Rattle.lt_base.specs.Or.{MapsFault};
ghost use Rattle.lt_tokens.specs.Fronts.{IsSmall};
ghost use Rattle.lt_syntax.specs.Parser as parser;
ghost use Rattle.lt_syntax.specs.Phases.{state_of, parser_kind, Fits};
ghost use Rattle.lt_syntax.specs.Reads.{AnswersSyntax, ParserStepsAt, TextEnds, TakesToken, syntax_kind};

use crate::fault::{SyntaxFault, SyntaxKind};
use crate::header::{Kind, Parser, may_end, start, step};
use crate::tree::NodeText;
use lt_base::{List, Or};
use lt_tokens::{Front, Token, read_front, skip};
use std::alloc::Global;
use std::mem::replace;

fn syntax_kind(kind: Kind) -> SyntaxKind
    ensures { result ≡ syntax_kind (parser_kind kind) }
{
    match kind {
        Kind::Unexpected => SyntaxKind::Unexpected,
        Kind::TooDeep => SyntaxKind::TooDeep,
    }
}

/// A token's fault at its place.
fn place_fault(at: usize, error: Or<Kind>) -> Or<SyntaxFault>
    ensures { MapsFault error result (λ k f. f ≡ record { at = at; kind = syntax_kind (parser_kind k) }) }
{
    match error {
        Or::Fault(kind) => {
            let kind = syntax_kind(kind);
            Or::Fault(SyntaxFault { at, kind })
        }
        Or::Memory => Or::Memory,
    }
}

fn step_at(alloc: Global, p: &mut Parser, t: Token, at: usize) -> Result<(), Or<SyntaxFault>>
    requires small { IsSmall t }
    requires room { Fits greatest_height (state_of p.old).phase }
    ensures { ParserStepsAt at result (state_of p.new) (parser.parser_step greatest_height (state_of p.old) t) }
{
    step(alloc, p, t).map_err(|error| place_fault(at, error))
}

/// The text may end here.
fn is_whole(p: &Parser) -> bool
    ensures { IsTrue result ↔ TextEnds (state_of p.now) }
{
    may_end(p) && !p.nodes.is_empty()
}

/// The end of the text.
fn end_at(p: &Parser, at: usize) -> Result<Option<usize>, Or<SyntaxFault>>
    ensures { (here : List ℕ) → text.front here ≡ text.Over → TakesToken greatest_height at here (state_of p.now) (state_of p.now) result }
{
    if is_whole(p) {
        return Ok(None);
    }
    let kind = SyntaxKind::Unexpected;
    Err(Or::Fault(SyntaxFault { at, kind }))
}

/// Takes a token at the front of a text without blanks there, and answers the number of its bytes; none where the text ends.
fn take_token(
    alloc: Global,
    p: &mut Parser,
    here: &[u8],
    at: usize,
) -> Result<Option<usize>, Or<SyntaxFault>>
    requires { Fits greatest_height (state_of p.old).phase }
    ensures { TakesToken greatest_height at here.now (state_of p.old) (state_of p.new) result }
{
    match read_front(alloc, here)? {
        Front::Begins(t, n) => {
            step_at(alloc, p, t, at)?;
            Ok(Some(n))
        }
        Front::Over => end_at(p, at),
        Front::BadByte => {
            let kind = SyntaxKind::BadByte;
            Err(Or::Fault(SyntaxFault { at, kind }))
        }
        Front::BadNumber => {
            let kind = SyntaxKind::BadNumber;
            Err(Or::Fault(SyntaxFault { at, kind }))
        }
    }
}

/// Takes all tokens of a text, and answers its nodes.
fn take_tokens(
    alloc: Global,
    p: &mut Parser,
    bytes: &[u8],
) -> Result<List<NodeText>, Or<SyntaxFault>>
    requires { state_of p.old ≡ parser.parser_start }
    ensures { AnswersSyntax greatest_height bytes.now result }
{
    let mut rest = bytes;
    'text: loop {
        let here = skip(rest);
        match take_token(alloc, p, here, bytes.len() - here.len())? {
            Some(n) => rest = &here[n..],
            None => return Ok(replace(&mut p.nodes, List::new(alloc))),
        }
    }
}

/// The nodes that the bytes spell, or the first offending place.
pub fn read(alloc: Global, bytes: &[u8]) -> Result<List<NodeText>, Or<SyntaxFault>>
    ensures { AnswersSyntax greatest_height bytes.now result }
{
    let mut p = start(alloc);
    let answer = take_tokens(alloc, &mut p, bytes);
    drop(p);
    answer
}
