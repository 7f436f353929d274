// The reader of observers: what each token does to the forms that are begun.
ghost use Rattle.std.specs.Prelude.{◌≡◌, ◌≤◌, ◌<◌, ◌+◌, ◌^◌, ◌↔◌, [], ◌∷◌, IfOk, IfSome, OnOk, IsTrue, MatchOption, List, length};
ghost use Rattle.lt_base.specs.Limits.{greatest_height};
ghost use Rattle.lt_past.specs.Levels as levels;
ghost use Rattle.lt_past.specs.Machine as machine;
ghost use Rattle.lt_past.specs.Views.{formula_of};
ghost use Rattle.lt_past.specs.Parsed.{FindsFormula, ObserverSteps, observer_frame_of, observer_operand_of, observer_stack_of, observer_state_of, observer_top_ends};
ghost use Rattle.lt_base.specs.Memory.{NeedsNoMemory};

use crate::words::{Infix, Prefix};
use crate::{Obs, ObserverKind};
use lt_base::limits::GREATEST_HEIGHT;
use lt_base::{Memory, Or};
use std::alloc::Global;

/// A whole operand: its formula, and the height of its text.
#[derive(Drop)]
pub struct Operand {
    pub formula: Obs,
    pub height: u32,
}

/// A form that is begun, and waits for its next part.
#[derive(Drop)]
pub enum Frame {
    Opened,
    Prefixed(Prefix),
    Joined(Infix, Operand),
}

/// The forms that are begun, and the operand that is whole, where one is; where none is, one must come.
#[derive(Drop)]
pub struct Parser {
    pub frames: Vec<Frame>,
    pub whole: Option<Operand>,
}

/// The level of the line on which two formulas meet.
fn level(word: Infix) -> u8
    ensures { result ≡ levels.observer_level word }
{
    match word {
        Infix::Implies => 1,
        Infix::Since => 2,
        Infix::Or => 3,
        Infix::And => 4,
    }
}

/// The level of what stands to the left of it.
fn left(word: Infix) -> u8
    ensures value { result ≡ levels.observer_left_level word }
    ensures level { 1 ≤ result }
{
    match word {
        Infix::Implies | Infix::Since => 2,
        Infix::Or => 3,
        Infix::And => 4,
    }
}

fn push(frames: &mut Vec<Frame>, f: Frame) -> Result<(), Memory>
    ensures { OnOk result (observer_stack_of frames.new.items ≡ observer_frame_of f ∷ observer_stack_of frames.old.items) }
{
    frames.push(f)?;
    Ok(())
}

fn pop(frames: &mut Vec<Frame>) -> Option<Frame>
    ensures len { IfSome result (λ _. length frames.new.items + 1 ≡ length frames.old.items) }
    ensures stack { MatchOption result
        ((observer_stack_of frames.old.items ≡ []) × (observer_stack_of frames.new.items ≡ []))
        (λ f. observer_stack_of frames.old.items ≡ observer_frame_of f ∷ observer_stack_of frames.new.items) }
{
    frames.pop()
}

/// The level of the newest form, where its next operand completes it.
fn newest_ends(frames: &[Frame]) -> u8
    ensures { result ≡ observer_top_ends (observer_stack_of frames.now) }
{
    match frames.last() {
        Some(Frame::Prefixed(_)) => 5,
        Some(Frame::Joined(word, _)) => level(*word),
        _ => 0,
    }
}

/// The least height of what a form may become.
fn least(f: &Frame) -> u64
    ensures value { result ≡ machine.observer_least_height (observer_frame_of f.now) }
    ensures bound { result ≤ 2 ^ 32 }
{
    match f {
        Frame::Joined(_, a) => u64::from(a.height) + 1,
        _ => 2,
    }
}

/// The newest form fits the limit.
fn fits(frames: &[Frame]) -> bool
    ensures { IsTrue result ↔ (machine.observer_need (observer_stack_of frames.now) ≤ greatest_height) }
{
    let Some(f) = frames.last() else {
        return true;
    };
    frames.len() <= GREATEST_HEIGHT as usize
        && frames.len() as u64 - 1 + least(f) <= u64::from(GREATEST_HEIGHT)
}

fn apply_prefix(alloc: Global, word: Prefix, a: Operand) -> Result<Operand, Memory>
    requires { a.height + 1 < 2 ^ 32 }
    ensures { IfOk result (λ r. observer_operand_of r ≡ machine.observer_complete (machine.prefixed word) (observer_operand_of a)) }
{
    let height = a.height + 1;
    let inner = Box::new(alloc, a.formula)?;
    let formula = match word {
        Prefix::Not => Obs::Not(inner),
        Prefix::Previous => Obs::Previous(inner),
        Prefix::Once => Obs::Once(inner),
        Prefix::Historically => Obs::Historically(inner),
    };
    Ok(Operand { formula, height })
}

fn join_operands(alloc: Global, word: Infix, a: Operand, b: Operand) -> Result<Operand, Memory>
    requires { (machine.observer_complete (machine.joined word (observer_operand_of a)) (observer_operand_of b)).height < 2 ^ 32 }
    ensures { IfOk result (λ r. observer_operand_of r ≡ machine.observer_complete (machine.joined word (observer_operand_of a)) (observer_operand_of b)) }
{
    let height = a.height.max(b.height) + 1;
    let first = Box::new(alloc, a.formula)?;
    let second = Box::new(alloc, b.formula)?;
    let formula = match word {
        Infix::And => Obs::And(first, second),
        Infix::Or => Obs::Or(first, second),
        Infix::Since => Obs::Since(first, second),
        Infix::Implies => Obs::Implies(first, second),
    };
    Ok(Operand { formula, height })
}

/// The form with its last part.
fn complete(alloc: Global, f: Frame, b: Operand) -> Result<Operand, Memory>
    requires { (machine.observer_complete (observer_frame_of f) (observer_operand_of b)).height < 2 ^ 32 }
    ensures { IfOk result (λ r. observer_operand_of r ≡ machine.observer_complete (observer_frame_of f) (observer_operand_of b)) }
{
    match f {
        Frame::Opened => Ok(b),
        Frame::Prefixed(word) => apply_prefix(alloc, word, b),
        Frame::Joined(word, a) => join_operands(alloc, word, a, b),
    }
}

/// Completes the forms from this level on.
fn close(alloc: Global, l: u8, frames: &mut Vec<Frame>, first: Operand) -> Result<Operand, Memory>
    requires level { 1 ≤ l }
    requires room { machine.ObserverHasRoom greatest_height (observer_stack_of frames.old.items) (observer_operand_of first) }
    ensures closed { IfOk result (λ b. machine.observer_close l (observer_stack_of frames.old.items) (observer_operand_of first)
        ≡ record { below = observer_stack_of frames.new.items; operand = observer_operand_of b }) }
    ensures room { IfOk result (λ b. machine.ObserverHasRoom greatest_height (observer_stack_of frames.new.items) (observer_operand_of b)) }
{
    let mut b = first;
    'forms: while newest_ends(frames) >= l {
        let Some(f) = pop(frames) else {
            break;
        };
        b = complete(alloc, f, b)?;
    }
    Ok(b)
}

/// A form is begun, and an operand must come.
fn waiting(frames: Vec<Frame>) -> Result<Parser, Or<ObserverKind>>
    ensures steps { ObserverSteps result (machine.fitting greatest_height (observer_stack_of frames.items)) }
    ensures memory { NeedsNoMemory result }
{
    if fits(&frames) {
        Ok(Parser {
            frames,
            whole: None,
        })
    } else {
        Err(Or::Fault(ObserverKind::TooDeep))
    }
}

/// An operand that is whole by itself.
pub fn leaf(parser: Parser, formula: Obs) -> Result<Parser, Or<ObserverKind>>
    ensures steps { ObserverSteps result (machine.leaf (formula_of formula) (observer_state_of parser).frames (observer_state_of parser).whole) }
    ensures memory { NeedsNoMemory result }
{
    if parser.whole.is_some() {
        return Err(Or::Fault(ObserverKind::Unexpected));
    }
    let whole = Some(Operand { formula, height: 1 });
    Ok(Parser {
        frames: parser.frames,
        whole,
    })
}

/// A form begins with what stands before its operand.
pub fn begin(parser: Parser, f: Frame) -> Result<Parser, Or<ObserverKind>>
    ensures { ObserverSteps result (machine.begin greatest_height (observer_frame_of f) (observer_state_of parser).frames (observer_state_of parser).whole) }
{
    if parser.whole.is_some() {
        return Err(Or::Fault(ObserverKind::Unexpected));
    }
    let mut frames = parser.frames;
    push(&mut frames, f)?;
    waiting(frames)
}

/// A word or symbol behind an operand.
pub fn join(alloc: Global, parser: Parser, word: Infix) -> Result<Parser, Or<ObserverKind>>
    requires { machine.ObserverHeld greatest_height (observer_state_of parser).frames (observer_state_of parser).whole }
    ensures { ObserverSteps result (machine.join greatest_height word (observer_state_of parser).frames (observer_state_of parser).whole) }
{
    let Parser { frames, whole } = parser;
    let Some(first) = whole else {
        return Err(Or::Fault(ObserverKind::Unexpected));
    };
    let mut frames = frames;
    let a = close(alloc, left(word), &mut frames, first)?;
    push(&mut frames, Frame::Joined(word, a))?;
    waiting(frames)
}

/// What ) makes of the newest form and its operand.
fn shut_on(frames: Vec<Frame>, b: Operand) -> Result<Parser, Or<ObserverKind>>
    requires { b.height + 1 < 2 ^ 32 }
    ensures steps { ObserverSteps result (machine.shut_on (observer_stack_of frames.items) (observer_operand_of b)) }
    ensures memory { NeedsNoMemory result }
{
    let mut frames = frames;
    match pop(&mut frames) {
        Some(Frame::Opened) => {
            let whole = Some(Operand {
                formula: b.formula,
                height: b.height + 1,
            });
            Ok(Parser { frames, whole })
        }
        _ => Err(Or::Fault(ObserverKind::Unexpected)),
    }
}

/// ) behind an operand.
pub fn shut(alloc: Global, parser: Parser) -> Result<Parser, Or<ObserverKind>>
    requires { machine.ObserverHeld greatest_height (observer_state_of parser).frames (observer_state_of parser).whole }
    ensures { ObserverSteps result (machine.shut (observer_state_of parser).frames (observer_state_of parser).whole) }
{
    let Parser { frames, whole } = parser;
    let Some(first) = whole else {
        return Err(Or::Fault(ObserverKind::Unexpected));
    };
    let mut frames = frames;
    let b = close(alloc, 1, &mut frames, first)?;
    shut_on(frames, b)
}

/// The formula of the whole text, where it may end.
pub fn end(alloc: Global, parser: Parser) -> Result<Option<Obs>, Memory>
    requires { machine.ObserverHeld greatest_height (observer_state_of parser).frames (observer_state_of parser).whole }
    ensures { FindsFormula result (machine.end_of (observer_state_of parser).frames (observer_state_of parser).whole) }
{
    let Parser { frames, whole } = parser;
    let Some(first) = whole else {
        return Ok(None);
    };
    let mut frames = frames;
    let b = close(alloc, 1, &mut frames, first)?;
    if frames.is_empty() {
        Ok(Some(b.formula))
    } else {
        Ok(None)
    }
}
