// The parser of expressions: what each token does to the forms that are begun.
ghost use Rattle.std.specs.Prelude.{◌≡◌, ◌<◌, ◌≤◌, ◌+◌, ◌^◌, ◌++◌, ◌∷◌, [], ℕ, List, map, IfOk, Ok};
ghost use Rattle.lt_base.specs.Limits.{greatest_height};
ghost use Rattle.lt_tokens.specs.declared.token.Token.TheVariants as token;
ghost use Rattle.lt_tokens.specs.Fronts.{IsSmall};
ghost use Rattle.lt_syntax.specs.declared.frame.Next.TheVariants as next;
ghost use Rattle.lt_syntax.specs.Machine as machine;
ghost use Rattle.lt_syntax.specs.Machine.{Held, HasRoom};
ghost use Rattle.lt_syntax.specs.Views.{operand_of, frame_of, stack_of, mode_of, next_of, tm_of};

use crate::frame::{
    Frame, Mode, Next, Operand, call, complete, number, paren, sample_operand, truth, variable,
};
use crate::stack::{hole, left, level, newest_ends, pop, push};
use crate::term::Term;
use lt_base::{Bin, Memory, Name};
use lt_tokens::{Infix, Token};
use std::alloc::Global;

/// Completes the forms from this level on.
fn close(alloc: Global, l: u8, frames: &mut Vec<Frame>, first: Operand) -> Result<Operand, Memory>
    requires level { 1 ≤ l }
    requires room { HasRoom greatest_height (stack_of frames.old.items) (operand_of first) }
    ensures closed { IfOk result (λ b. (k : List machine.Frame → machine.Operand → machine.Next) →
        machine.close l (stack_of frames.old.items) (operand_of first) k ≡ k (stack_of frames.new.items) (operand_of b)) }
    ensures room { IfOk result (λ b. HasRoom greatest_height (stack_of frames.new.items) (operand_of b)) }
{
    let mut b = first;
    'forms: while newest_ends(frames) >= l {
        let Some(f) = pop(frames) else {
            break;
        };
        b = complete(alloc, f, b)?;
    }
    Ok(b)
}

/// One more argument.
fn with_argument(xs: Vec<Term>, b: Box<Term>) -> Result<Vec<Term>, Memory>
    ensures { IfOk result (λ ys. map tm_of ys.items ≡ map tm_of xs.items ++ tm_of b.value ∷ []) }
{
    let mut xs = xs;
    xs.push(Box::into_inner(b))?;
    Ok(xs)
}

fn after_infix(o: Infix, frames: &mut Vec<Frame>, b: Operand) -> Result<Next, Memory>
    ensures { IfOk result (λ n. next_of n (stack_of frames.new.items) ≡ machine.after_operand (token.Infix o) (stack_of frames.old.items) (operand_of b)) }
{
    if hole(frames) > level(o) {
        return Ok(Next::Bad);
    }
    begin(frames, Frame::AfterInfix(o, b))
}

fn after_when(frames: &mut Vec<Frame>, b: Operand) -> Result<Next, Memory>
    ensures { IfOk result (λ n. next_of n (stack_of frames.new.items) ≡ machine.after_operand token.When (stack_of frames.old.items) (operand_of b)) }
{
    if hole(frames) > 9 {
        return Ok(Next::Bad);
    }
    begin_clock(frames, Frame::Sampling(b, true))
}

/// A call with its last argument.
fn end_call(
    alloc: Global,
    f: Name,
    xs: Vec<Term>,
    height: u32,
    b: Box<Term>,
) -> Result<Operand, Memory>
    requires { height + 2 < 2 ^ 32 }
    ensures { IfOk result (λ r. operand_of r ≡ machine.call_of f (map tm_of xs.items ++ tm_of b.value ∷ []) height) }
{
    call(alloc, f, with_argument(xs, b)?, height)
}

/// The newest form does not wait for the token.
fn bad(newest: Option<Frame>) -> Result<Next, Memory>
    ensures { result ≡ Ok next.Bad }
{
    drop(newest);
    Ok(Next::Bad)
}

fn after_close(alloc: Global, frames: &mut Vec<Frame>, b: Operand) -> Result<Next, Memory>
    requires { HasRoom greatest_height (stack_of frames.old.items) (operand_of b) }
    ensures { IfOk result (λ n. next_of n (stack_of frames.new.items) ≡ machine.after_operand token.Close (stack_of frames.old.items) (operand_of b)) }
{
    match pop(frames) {
        Some(form @ Frame::InParen) => {
            drop(form);
            Ok(Next::Go(Mode::Has(paren(b))))
        }
        Some(Frame::InCall(f, xs, h)) => {
            has_operand(end_call(alloc, f, xs, h.max(b.height), b.term))
        }
        newest => bad(newest),
    }
}

/// The next argument begins.
fn next_argument(
    frames: &mut Vec<Frame>,
    f: Name,
    xs: Vec<Term>,
    height: u32,
    b: Box<Term>,
) -> Result<Next, Memory>
    ensures { IfOk result (λ n. next_of n (stack_of frames.new.items) ≡ machine.Go (machine.InCall f (map tm_of xs.items ++ tm_of b.value ∷ []) height ∷ stack_of frames.old.items) machine.Want) }
{
    let xs = with_argument(xs, b)?;
    begin(frames, Frame::InCall(f, xs, height))
}

fn after_comma(frames: &mut Vec<Frame>, b: Operand) -> Result<Next, Memory>
    ensures { IfOk result (λ n. next_of n (stack_of frames.new.items) ≡ machine.after_operand token.Comma (stack_of frames.old.items) (operand_of b)) }
{
    match pop(frames) {
        Some(Frame::InCall(f, xs, h)) => next_argument(frames, f, xs, h.max(b.height), b.term),
        newest => bad(newest),
    }
}

fn after_then(frames: &mut Vec<Frame>, b: Operand) -> Result<Next, Memory>
    ensures { IfOk result (λ n. next_of n (stack_of frames.new.items) ≡ machine.after_operand token.Then (stack_of frames.old.items) (operand_of b)) }
{
    match pop(frames) {
        Some(form @ Frame::AfterIf) => {
            drop(form);
            begin(frames, Frame::AfterThen(b))
        }
        newest => bad(newest),
    }
}

fn after_else(frames: &mut Vec<Frame>, b: Operand) -> Result<Next, Memory>
    ensures { IfOk result (λ n. next_of n (stack_of frames.new.items) ≡ machine.after_operand token.Else (stack_of frames.old.items) (operand_of b)) }
{
    match pop(frames) {
        Some(Frame::AfterThen(c)) => begin(frames, Frame::AfterElse(c, b)),
        newest => bad(newest),
    }
}

fn after_semicolon(frames: &mut Vec<Frame>, b: Operand) -> Next
    ensures { next_of result (stack_of frames.new.items) ≡ machine.after_operand token.Semicolon (stack_of frames.old.items) (operand_of b) }
{
    if frames.is_empty() {
        Next::Done(b)
    } else {
        Next::Bad
    }
}

/// A form begins, and with it its next part.
fn begin_with(alloc: Global, t: Token, frames: &mut Vec<Frame>, f: Frame) -> Result<Next, Memory>
    requires { IsSmall t }
    ensures { IfOk result (λ n. next_of n (stack_of frames.new.items) ≡ machine.want t (frame_of f ∷ stack_of frames.old.items)) }
{
    push(frames, f)?;
    want(alloc, t, frames)
}

/// The second part of a merge begins.
fn second(alloc: Global, t: Token, frames: &mut Vec<Frame>, b: Operand) -> Result<Next, Memory>
    requires { IsSmall t }
    ensures { IfOk result (λ n. next_of n (stack_of frames.new.items) ≡ machine.second t (stack_of frames.old.items) (operand_of b)) }
{
    match pop(frames) {
        Some(Frame::FirstPart(c)) => begin_with(alloc, t, frames, Frame::SecondPart(c, b)),
        newest => bad(newest),
    }
}

/// What a token does behind an operand that it ends.
fn after(alloc: Global, t: Token, frames: &mut Vec<Frame>, b: Operand) -> Result<Next, Memory>
    requires small { IsSmall t }
    requires room { HasRoom greatest_height (stack_of frames.old.items) (operand_of b) }
    ensures { IfOk result (λ n. next_of n (stack_of frames.new.items) ≡ machine.after_operand t (stack_of frames.old.items) (operand_of b)) }
{
    match t {
        Token::Infix(o) => after_infix(o, frames, b),
        Token::When => after_when(frames, b),
        Token::Close => after_close(alloc, frames, b),
        Token::Comma => after_comma(frames, b),
        Token::Then => after_then(frames, b),
        Token::Else => after_else(frames, b),
        Token::Semicolon => Ok(after_semicolon(frames, b)),
        Token::Number(n) => second(alloc, Token::Number(n), frames, b),
        Token::Truth(v) => second(alloc, Token::Truth(v), frames, b),
        Token::Ident(x) => second(alloc, Token::Ident(x), frames, b),
        Token::Open => second(alloc, Token::Open, frames, b),
        _ => Ok(Next::Bad),
    }
}

/// The level from which on a token completes forms.
fn stop(t: &Token) -> u8
    ensures value { result ≡ machine.stop t.now }
    ensures level { 1 ≤ result }
{
    match t {
        Token::Infix(o) => left(*o),
        Token::When => 9,
        Token::Close | Token::Comma | Token::Then | Token::Else | Token::Semicolon => 1,
        _ => 12,
    }
}

/// What a token does behind an operand.
fn has(alloc: Global, t: Token, frames: &mut Vec<Frame>, b: Operand) -> Result<Next, Memory>
    requires small { IsSmall t }
    requires room { HasRoom greatest_height (stack_of frames.old.items) (operand_of b) }
    ensures { IfOk result (λ n. next_of n (stack_of frames.new.items) ≡ machine.has_operand (stack_of frames.old.items) (operand_of b) t) }
{
    let b = close(alloc, stop(&t), frames, b)?;
    after(alloc, t, frames, b)
}

fn empty_call(alloc: Global, f: Name, xs: Vec<Term>) -> Result<Next, Memory>
    ensures { IfOk result (λ n. (h : ℕ) (fs : List machine.Frame) → next_of n fs ≡ machine.want token.Close (machine.InCall f (map tm_of xs.items) h ∷ fs)) }
{
    if xs.is_empty() {
        return Ok(Next::Go(Mode::Has(call(alloc, f, xs, 0)?)));
    }
    Ok(Next::Bad)
}

fn want_close(alloc: Global, frames: &mut Vec<Frame>) -> Result<Next, Memory>
    ensures { IfOk result (λ n. next_of n (stack_of frames.new.items) ≡ machine.want token.Close (stack_of frames.old.items)) }
{
    match pop(frames) {
        Some(Frame::InCall(f, xs, _)) => empty_call(alloc, f, xs),
        newest => bad(newest),
    }
}

/// What a token does where an operand must begin.
fn want(alloc: Global, t: Token, frames: &mut Vec<Frame>) -> Result<Next, Memory>
    requires { IsSmall t }
    ensures { IfOk result (λ n. next_of n (stack_of frames.new.items) ≡ machine.want t (stack_of frames.old.items)) }
{
    match t {
        Token::Number(n) => has_operand(number(alloc, n)),
        Token::Truth(b) => has_operand(truth(alloc, b)),
        Token::Ident(x) => Ok(Next::Go(Mode::Named(x))),
        Token::Open => begin(frames, Frame::InParen),
        Token::Infix(Infix::Operator(Bin::Sub)) if hole(frames) <= 10 => {
            begin(frames, Frame::AfterMinus)
        }
        Token::Not if hole(frames) <= 5 => begin(frames, Frame::AfterNot),
        Token::If if hole(frames) <= 1 => begin(frames, Frame::AfterIf),
        Token::Merge if hole(frames) <= 11 => begin_clock(frames, Frame::AfterMerge),
        Token::Close => want_close(alloc, frames),
        _ => Ok(Next::Bad),
    }
}

/// A form begins, and an operand must come.
fn begin(frames: &mut Vec<Frame>, f: Frame) -> Result<Next, Memory>
    ensures { IfOk result (λ n. next_of n (stack_of frames.new.items) ≡ machine.Go (frame_of f ∷ stack_of frames.old.items) machine.Want) }
{
    push(frames, f)?;
    Ok(Next::Go(Mode::Want))
}

/// A form begins, and a clock's variable must come.
fn begin_clock(frames: &mut Vec<Frame>, f: Frame) -> Result<Next, Memory>
    ensures { IfOk result (λ n. next_of n (stack_of frames.new.items) ≡ machine.Go (frame_of f ∷ stack_of frames.old.items) machine.WantClock) }
{
    push(frames, f)?;
    Ok(Next::Go(Mode::WantClock))
}

/// An operand stands behind the forms that are begun, where it was made.
fn has_operand(made: Result<Operand, Memory>) -> Result<Next, Memory>
    ensures { (a : machine.Operand) (fs : List machine.Frame) → IfOk made (λ b. operand_of b ≡ a) → IfOk result (λ n. next_of n fs ≡ machine.Go fs (machine.Has a)) }
{
    Ok(Next::Go(Mode::Has(made?)))
}

fn sampling_not(a: Operand, polarity: bool, frames: &mut Vec<Frame>) -> Result<Next, Memory>
    ensures { IfOk result (λ n. next_of n (stack_of frames.new.items) ≡ machine.clock token.Not (machine.Sampling (operand_of a) polarity ∷ stack_of frames.old.items)) }
{
    if polarity {
        return begin_clock(frames, Frame::Sampling(a, false));
    }
    Ok(Next::Bad)
}

fn clock_not(frames: &mut Vec<Frame>) -> Result<Next, Memory>
    ensures { IfOk result (λ n. next_of n (stack_of frames.new.items) ≡ machine.clock token.Not (stack_of frames.old.items)) }
{
    match pop(frames) {
        Some(Frame::Sampling(a, polarity)) => sampling_not(a, polarity, frames),
        newest => bad(newest),
    }
}

fn clock_name(alloc: Global, c: Name, frames: &mut Vec<Frame>) -> Result<Next, Memory>
    requires { Held greatest_height machine.WantClock (stack_of frames.old.items) }
    ensures { IfOk result (λ n. next_of n (stack_of frames.new.items) ≡ machine.clock (token.Ident c) (stack_of frames.old.items)) }
{
    match pop(frames) {
        Some(Frame::Sampling(a, b)) => has_operand(sample_operand(alloc, a, c, b)),
        Some(form @ Frame::AfterMerge) => {
            drop(form);
            begin(frames, Frame::FirstPart(c))
        }
        newest => bad(newest),
    }
}

/// What a token does where a clock's variable must come.
fn clock(alloc: Global, t: Token, frames: &mut Vec<Frame>) -> Result<Next, Memory>
    requires { Held greatest_height machine.WantClock (stack_of frames.old.items) }
    ensures { IfOk result (λ n. next_of n (stack_of frames.new.items) ≡ machine.clock t (stack_of frames.old.items)) }
{
    match t {
        Token::Not => clock_not(frames),
        Token::Ident(c) => clock_name(alloc, c, frames),
        _ => Ok(Next::Bad),
    }
}

/// Whether the token makes a call of the name before it.
fn opens(t: &Token, frames: &[Frame]) -> bool
    ensures { result ≡ machine.opens t.now (stack_of frames.now) }
{
    match t {
        Token::Open => hole(frames) <= 11,
        _ => false,
    }
}

/// What a token does behind a name.
fn behind_name(alloc: Global, x: Name, frames: &mut Vec<Frame>, t: Token) -> Result<Next, Memory>
    requires small { IsSmall t }
    requires room { Held greatest_height (machine.Named x) (stack_of frames.old.items) }
    ensures { IfOk result (λ n. next_of n (stack_of frames.new.items) ≡ machine.named x (stack_of frames.old.items) t) }
{
    if opens(&t, frames) {
        return begin(frames, Frame::InCall(x, Vec::new(alloc), 0));
    }
    has(alloc, t, frames, variable(alloc, x)?)
}

/// What a token does to an expression that is begun.
pub fn go(alloc: Global, m: Mode, frames: &mut Vec<Frame>, t: Token) -> Result<Next, Memory>
    requires small { IsSmall t }
    requires room { Held greatest_height (mode_of m) (stack_of frames.old.items) }
    ensures { IfOk result (λ n. next_of n (stack_of frames.new.items) ≡ machine.go (mode_of m) (stack_of frames.old.items) t) }
{
    match m {
        Mode::Want => want(alloc, t, frames),
        Mode::Named(x) => behind_name(alloc, x, frames, t),
        Mode::Has(a) => has(alloc, t, frames, a),
        Mode::WantClock => clock(alloc, t, frames),
    }
}
