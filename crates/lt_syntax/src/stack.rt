// The stack of begun forms, and the levels of the grammar.
ghost use Rattle.std.specs.Prelude.{◌≡◌, ◌≤◌, ◌↔◌, [], ◌∷◌, OnOk, OnErr, MatchOption, IfSome, IsTrue, vec_len, ◌+◌, ◌^◌};
ghost use Rattle.lt_base.specs.Limits.{greatest_height};
ghost use Rattle.lt_syntax.specs.Levels.{infix_line, level, left_level, right_level};
ghost use Rattle.lt_syntax.specs.Machine as machine;
ghost use Rattle.lt_syntax.specs.Views.{frame_of, stack_of, top_ends, TakesTop};

use crate::frame::{Frame, left_height};
use lt_base::limits::GREATEST_HEIGHT;
use lt_base::{Bin, Memory};
use lt_tokens::Infix;

/// The level of the line on which two expressions meet.
pub fn level(o: Infix) -> u8
    ensures { result ≡ level (infix_line o) }
{
    match o {
        Infix::Fby | Infix::Arrow => 1,
        Infix::Operator(Bin::Implies) => 2,
        Infix::Operator(Bin::Or | Bin::Xor) => 3,
        Infix::Operator(Bin::And) => 4,
        Infix::Operator(Bin::Eq | Bin::Ne | Bin::Lt | Bin::Le | Bin::Gt | Bin::Ge) => 6,
        Infix::Operator(Bin::Add | Bin::Sub) => 7,
        Infix::Operator(Bin::Mul | Bin::Div | Bin::Mod) => 8,
    }
}

/// The level of what stands to the left of it.
pub fn left(o: Infix) -> u8
    ensures { result ≡ left_level (infix_line o) }
{
    match o {
        Infix::Fby | Infix::Arrow => 2,
        Infix::Operator(Bin::Implies | Bin::Or | Bin::Xor) => 3,
        Infix::Operator(Bin::And) => 4,
        Infix::Operator(Bin::Eq | Bin::Ne | Bin::Lt | Bin::Le | Bin::Gt | Bin::Ge) => 7,
        Infix::Operator(Bin::Add | Bin::Sub) => 7,
        Infix::Operator(Bin::Mul | Bin::Div | Bin::Mod) => 8,
    }
}

/// The level of what stands to the right of it.
pub fn right(o: Infix) -> u8
    ensures { result ≡ right_level (infix_line o) }
{
    match o {
        Infix::Fby | Infix::Arrow => 1,
        Infix::Operator(Bin::Implies) => 2,
        Infix::Operator(Bin::Or | Bin::Xor) => 4,
        Infix::Operator(Bin::And) => 5,
        Infix::Operator(Bin::Eq | Bin::Ne | Bin::Lt | Bin::Le | Bin::Gt | Bin::Ge) => 7,
        Infix::Operator(Bin::Add | Bin::Sub) => 8,
        Infix::Operator(Bin::Mul | Bin::Div | Bin::Mod) => 9,
    }
}

pub fn push(frames: &mut Vec<Frame>, f: Frame) -> Result<(), Memory>
    ensures { OnOk result (stack_of frames.new.items ≡ frame_of f ∷ stack_of frames.old.items) }
{
    frames.push(f)?;
    Ok(())
}

pub fn pop(frames: &mut Vec<Frame>) -> Option<Frame>
    ensures len { IfSome result (λ _. vec_len frames.new + 1 ≡ vec_len frames.old) }
    ensures stack { TakesTop frames.old.items frames.new.items result }
{
    frames.pop()
}

/// The level that the next operand must have.
pub fn hole(frames: &[Frame]) -> u8
    ensures { result ≡ machine.hole (stack_of frames.now) }
{
    match frames.last() {
        None => 1,
        Some(Frame::AfterMinus) => 11,
        Some(Frame::AfterNot) => 5,
        Some(Frame::AfterInfix(o, _)) => right(*o),
        Some(Frame::FirstPart(_) | Frame::SecondPart(_, _)) => 12,
        Some(_) => 1,
    }
}

/// The level of the newest form, where its next operand completes it.
pub fn newest_ends(frames: &[Frame]) -> u8
    ensures { result ≡ top_ends (stack_of frames.now) }
{
    match frames.last() {
        Some(Frame::AfterMinus) => 10,
        Some(Frame::AfterNot) => 5,
        Some(Frame::AfterInfix(o, _)) => level(*o),
        Some(Frame::AfterElse(_, _)) => 1,
        Some(Frame::SecondPart(_, _)) => 11,
        _ => 0,
    }
}

/// The least height of what a form may become.
fn least(f: &Frame) -> u64
    ensures value { result ≡ machine.least_height (frame_of f.now) }
    ensures bound { result ≤ 2 ^ 32 }
{
    match f {
        Frame::AfterInfix(o, a) => u64::from(left_height(*o, a)) + 1,
        Frame::AfterThen(c) => u64::from(c.height) + 1,
        Frame::AfterElse(c, a) => u64::from(c.height.max(a.height)) + 1,
        Frame::Sampling(a, _) => u64::from(a.height) + 1,
        Frame::SecondPart(_, a) => u64::from(a.height) + 1,
        Frame::InCall(_, _, h) => u64::from((*h).max(1)) + 1,
        _ => 2,
    }
}

/// The newest form fits the limit.
pub fn fits(frames: &[Frame]) -> bool
    ensures { IsTrue result ↔ (machine.need (stack_of frames.now) ≤ greatest_height) }
{
    let Some(f) = frames.last() else {
        return true;
    };
    frames.len() <= GREATEST_HEIGHT as usize
        && frames.len() as u64 - 1 + least(f) <= u64::from(GREATEST_HEIGHT)
}
