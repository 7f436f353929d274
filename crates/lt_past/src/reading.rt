// One pass over the bytes of an observer.
ghost use Rattle.std.specs.Prelude.{◌≡◌, ◌<◌, ◌^◌, List, ℕ, length};
ghost use Rattle.lt_base.specs.Limits.{greatest_height};
ghost use Rattle.lt_past.specs.Tokens as text;
ghost use Rattle.lt_past.specs.Machine as machine;
ghost use Rattle.lt_past.specs.Naming.{output_number};
ghost use Rattle.lt_past.specs.Parsed.{Parses, ObserverSteps, ObserverStepsAt, ObserverEndsAt, observer_state_of};
ghost use Rattle.lt_base.specs.Memory.{NeedsNoMemory};

use crate::names::number_of;
use crate::parser::{Frame, Parser, begin, end, join, leaf, shut};
use crate::tokens::{Front, read_front};
use crate::words::Sign;
use crate::{Obs, ObserverFault, ObserverKind};
use lt_base::{Func, Or};
use lt_tokens::skip;
use std::alloc::Global;

fn step_name(
    parser: Parser,
    main: &Func,
    outs: &[u32],
    name: &[u8],
) -> Result<Parser, Or<ObserverKind>>
    requires { length outs.now < 2 ^ 32 }
    ensures steps { ObserverSteps result (machine.observer_step greatest_height (output_number main.now outs.now) (observer_state_of parser) (text.name name.now)) }
    ensures memory { NeedsNoMemory result }
{
    leaf(parser, Obs::Out(number_of(main, outs, name)))
}

fn step_sign(alloc: Global, parser: Parser, sign: Sign) -> Result<Parser, Or<ObserverKind>>
    requires { machine.ObserverHeld greatest_height (observer_state_of parser).frames (observer_state_of parser).whole }
    ensures { (number : List ℕ → ℕ) → ObserverSteps result (machine.observer_step greatest_height number (observer_state_of parser) (text.sign sign)) }
{
    match sign {
        Sign::Truth(b) => leaf(parser, Obs::Lit(b)),
        Sign::Before(word) => begin(parser, Frame::Prefixed(word)),
        Sign::Between(word) => join(alloc, parser, word),
        Sign::Open => begin(parser, Frame::Opened),
        Sign::Close => shut(alloc, parser),
    }
}

/// A step's refusal at the place of its token.
fn place_fault(
    at: usize,
    stepped: Result<Parser, Or<ObserverKind>>,
) -> Result<Parser, Or<ObserverFault>>
    ensures { ObserverStepsAt at stepped result }
{
    match stepped {
        Ok(parser) => Ok(parser),
        Err(Or::Fault(kind)) => Err(Or::Fault(ObserverFault { at, kind })),
        Err(Or::Memory) => Err(Or::Memory),
    }
}

/// The formula, where the text may end.
fn end_formula(alloc: Global, at: usize, parser: Parser) -> Result<Obs, Or<ObserverFault>>
    requires { machine.ObserverHeld greatest_height (observer_state_of parser).frames (observer_state_of parser).whole }
    ensures { ObserverEndsAt at result (machine.end_of (observer_state_of parser).frames (observer_state_of parser).whole) }
{
    let kind = ObserverKind::Unexpected;
    match end(alloc, parser) {
        Ok(Some(formula)) => Ok(formula),
        Ok(None) => Err(Or::Fault(ObserverFault { at, kind })),
        Err(_) => Err(Or::Memory),
    }
}

/// The formula that the bytes spell, where each name is the signal at its output's place among these outputs; or the first
/// offending place.
pub fn read_formula(
    alloc: Global,
    bytes: &[u8],
    main: &Func,
    outs: &[u32],
) -> Result<Obs, Or<ObserverFault>>
    requires { length outs.now < 2 ^ 32 }
    ensures { Parses greatest_height (output_number main.now outs.now) bytes.now result }
{
    let mut parser = Parser {
        frames: Vec::new(alloc),
        whole: None,
    };
    let mut rest = bytes;
    'text: loop {
        let here = skip(rest);
        let at = bytes.len() - here.len();
        match read_front(here) {
            Front::Name(n) => {
                match place_fault(at, step_name(parser, main, outs, &here[..n])) {
                    Ok(next) => parser = next,
                    Err(e) => return Err(e),
                }
                rest = &here[n..];
            }
            Front::Other(sign, n) => {
                match place_fault(at, step_sign(alloc, parser, sign)) {
                    Ok(next) => parser = next,
                    Err(e) => return Err(e),
                }
                rest = &here[n..];
            }
            Front::Over => return end_formula(alloc, at, parser),
            Front::BadByte => {
                let kind = ObserverKind::BadByte;
                return Err(Or::Fault(ObserverFault { at, kind }));
            }
        }
    }
}
