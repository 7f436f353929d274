// The parser of programs: what each token does to what is begun.
ghost use Rattle.std.specs.Prelude.{◌≡◌, ◌++◌, ◌∷◌, [], ℕ, List, IfOk, IfErr, OnOk, IsTrue, ◌↔◌, Ok, Err, Result, if◌then◌else◌};
ghost use Rattle.lt_tokens.specs.declared.token.Token.TheVariants as token;
ghost use Rattle.lt_tokens.specs.Fronts.{IsSmall};
ghost use Rattle.lt_syntax.specs.Machine as machine;
ghost use Rattle.lt_syntax.specs.Parser as parser;
ghost use Rattle.lt_syntax.specs.declared.header.Phase.TheVariants as phases;
ghost use Rattle.lt_syntax.specs.declared.tree.NodeText.{NodeText as OneNode};
ghost use Rattle.lt_syntax.specs.Program.{declared};
ghost use Rattle.lt_syntax.specs.Views.{mode_of, operand_of, stack_of, next_of, tm_of};
ghost use Rattle.std.specs.Global.{Box};
ghost use Rattle.lt_base.specs.Limits.{greatest_height};
ghost use Rattle.lt_base.specs.declared.memory.Or.TheVariants as or;
ghost use Rattle.lt_syntax.specs.declared.header.Kind.TheVariants as kinds;
ghost use Rattle.lt_syntax.specs.Phases.{parser_phase_of, state_of, IsIn, MovesPhase, Proceeds, ParserSteps, Fits};
ghost use Rattle.lt_base.specs.Memory.{NeedsNoMemory};

use crate::expression::go;
use crate::frame::{Frame, Mode, Next, Operand};
use crate::section::Section;
use crate::stack::fits;
use crate::term::Term;
use crate::tree::{DeclText, EqText, NodeText};
use lt_base::{Bin, List, Memory, Name, Or, Ty};
use lt_tokens::{Infix, Token};
use std::alloc::Global;
use std::mem::replace;

/// Why a token is wrong.
#[derive(Clone, Copy, Drop)]
pub enum Kind {
    Unexpected,
    TooDeep,
}

/// Where the text is, with what is begun there.
#[derive(Drop)]
pub enum Phase {
    Idle,
    Told,
    WantNode,
    HasNode(Name),
    Opened(Box<NodeText>),
    WantName(Box<NodeText>, Section, List<Name>),
    HasName(Box<NodeText>, Section, List<Name>),
    WantType(Box<NodeText>, Section, List<Name>),
    HasGroup(Box<NodeText>, Section, List<Name>, Ty, List<(Name, bool)>),
    WantPolarity(Box<NodeText>, Section, List<Name>, Ty, List<(Name, bool)>),
    WantVariable(Box<NodeText>, Section, List<Name>, Ty, List<(Name, bool)>),
    HasIns(Box<NodeText>),
    Returning(Box<NodeText>),
    HasOuts(Box<NodeText>),
    HasHead(Box<NodeText>),
    HasLocals(Box<NodeText>),
    Body(Box<NodeText>),
    HasLeft(Box<NodeText>, Name),
    In(Box<NodeText>, Name),
}

/// The whole nodes, where the text is, and what is begun of the right side of an equation there.
#[derive(Drop)]
pub struct Parser {
    pub nodes: List<NodeText>,
    pub phase: Phase,
    pub frames: Vec<Frame>,
    pub mode: Mode,
}

/// Nothing is read yet.
pub fn start(alloc: Global) -> Parser
    ensures { state_of result ≡ parser.parser_start }
{
    Parser {
        nodes: List::new(alloc),
        phase: Phase::Idle,
        frames: Vec::new(alloc),
        mode: Mode::Want,
    }
}

/// The text may end here.
pub fn may_end(p: &Parser) -> bool
    ensures { IsTrue result ↔ parser.PhaseEnds (state_of p.now).phase }
{
    match &p.phase {
        Phase::Idle | Phase::Told => true,
        _ => false,
    }
}

fn wrong() -> Or<Kind>
    ensures { result ≡ or.Fault kinds.Unexpected }
{
    Or::Fault(Kind::Unexpected)
}

fn one(alloc: Global, x: Name) -> Result<List<Name>, Memory>
    ensures { IfOk result (λ xs. xs ≡ x ∷ []) }
{
    let mut xs = List::new(alloc);
    xs.push(x)?;
    Ok(xs)
}

/// Appends one declaration for each name.
fn declare(
    decls: &mut List<DeclText>,
    names: List<Name>,
    ty: Ty,
    clock: &List<(Name, bool)>,
) -> Result<(), Memory>
    ensures { OnOk result (decls.new ≡ decls.old ++ declared names ty clock.now) }
{
    for name in names.into_vec() {
        let clock = clock.copy()?;
        decls.push(DeclText { name, ty, clock })?;
    }
    Ok(())
}

/// Appends the declarations of a group.
fn declare_in(
    n: &mut NodeText,
    s: Section,
    names: List<Name>,
    ty: Ty,
    clock: &List<(Name, bool)>,
) -> Result<(), Memory>
    ensures { OnOk result (n.new ≡ parser.add n.old s (declared names ty clock.now)) }
{
    match s {
        Section::Ins => declare(&mut n.ins, names, ty, clock),
        Section::Outs => declare(&mut n.outs, names, ty, clock),
        Section::Locals => declare(&mut n.locals, names, ty, clock),
    }
}

/// The node with the declarations of a group.
fn add(
    n: Box<NodeText>,
    s: Section,
    xs: List<Name>,
    ty: Ty,
    c: List<(Name, bool)>,
) -> Result<Box<NodeText>, Memory>
    ensures { IfOk result (λ m. m.value ≡ parser.add n.value s (declared xs ty c)) }
{
    let mut n = n;
    declare_in(&mut n, s, xs, ty, &c)?;
    Ok(n)
}

fn idle(t: Token) -> Result<Phase, Or<Kind>>
    ensures moves { MovesPhase result (parser.move greatest_height parser.Idle t) }
    ensures memory { NeedsNoMemory result }
{
    match t {
        Token::Node => Ok(Phase::WantNode),
        _ => Err(wrong()),
    }
}

fn behind_tel(t: Token) -> Result<Phase, Or<Kind>>
    ensures moves { MovesPhase result (parser.move greatest_height parser.Told t) }
    ensures memory { NeedsNoMemory result }
{
    match t {
        Token::Node => Ok(Phase::WantNode),
        Token::Semicolon => Ok(Phase::Idle),
        _ => Err(wrong()),
    }
}

fn want_node(t: Token) -> Result<Phase, Or<Kind>>
    ensures moves { MovesPhase result (parser.move greatest_height parser.WantNode t) }
    ensures memory { NeedsNoMemory result }
{
    match t {
        Token::Ident(x) => Ok(Phase::HasNode(x)),
        _ => Err(wrong()),
    }
}

fn empty_node(alloc: Global, name: Name) -> Result<Box<NodeText>, Memory>
    ensures { IfOk result (λ n. n.value ≡ parser.empty_node name) }
{
    let node = NodeText {
        name,
        ins: List::new(alloc),
        outs: List::new(alloc),
        locals: List::new(alloc),
        eqs: List::new(alloc),
    };
    Ok(Box::new(alloc, node)?)
}

fn has_node(alloc: Global, name: Name, t: Token) -> Result<Phase, Or<Kind>>
    ensures { MovesPhase result (parser.move greatest_height (parser.HasNode name) t) }
{
    match t {
        Token::Open => Ok(Phase::Opened(empty_node(alloc, name)?)),
        _ => Err(wrong()),
    }
}

fn behind_open(alloc: Global, n: Box<NodeText>, t: Token) -> Result<Phase, Or<Kind>>
    ensures { MovesPhase result (parser.move greatest_height (parser.Opened n.value) t) }
{
    match t {
        Token::Ident(x) => Ok(Phase::HasName(n, Section::Ins, one(alloc, x)?)),
        Token::Close => Ok(Phase::HasIns(n)),
        _ => Err(wrong()),
    }
}

fn want_name(n: Box<NodeText>, s: Section, xs: List<Name>, t: Token) -> Result<Phase, Or<Kind>>
    ensures { MovesPhase result (parser.move greatest_height (parser.WantName n.value s xs) t) }
{
    match t {
        Token::Ident(x) => {
            let mut xs = xs;
            xs.push(x)?;
            Ok(Phase::HasName(n, s, xs))
        }
        _ => Err(wrong()),
    }
}

fn has_name(n: Box<NodeText>, s: Section, xs: List<Name>, t: Token) -> Result<Phase, Or<Kind>>
    ensures moves { MovesPhase result (parser.move greatest_height (parser.HasName n.value s xs) t) }
    ensures memory { NeedsNoMemory result }
{
    match t {
        Token::Comma => Ok(Phase::WantName(n, s, xs)),
        Token::Colon => Ok(Phase::WantType(n, s, xs)),
        _ => Err(wrong()),
    }
}

fn want_type(
    alloc: Global,
    n: Box<NodeText>,
    s: Section,
    xs: List<Name>,
    t: Token,
) -> Result<Phase, Or<Kind>>
    ensures moves { MovesPhase result (parser.move greatest_height (parser.WantType n.value s xs) t) }
    ensures memory { NeedsNoMemory result }
{
    match t {
        Token::Type(ty) => Ok(Phase::HasGroup(n, s, xs, ty, List::new(alloc))),
        _ => Err(wrong()),
    }
}

fn group_when(
    n: Box<NodeText>,
    s: Section,
    xs: List<Name>,
    ty: Ty,
    c: List<(Name, bool)>,
) -> Result<Phase, Or<Kind>>
    ensures moves { MovesPhase result (parser.end_group token.When n.value s xs ty c) }
    ensures memory { NeedsNoMemory result }
{
    match s {
        Section::Ins => Err(wrong()),
        Section::Outs | Section::Locals => Ok(Phase::WantPolarity(n, s, xs, ty, c)),
    }
}

fn group_semicolon(
    alloc: Global,
    n: Box<NodeText>,
    s: Section,
    xs: List<Name>,
    ty: Ty,
    c: List<(Name, bool)>,
) -> Result<Phase, Or<Kind>>
    ensures { MovesPhase result (parser.end_group token.Semicolon n.value s xs ty c) }
{
    let n = add(n, s, xs, ty, c)?;
    match s {
        Section::Locals => Ok(Phase::HasLocals(n)),
        Section::Ins | Section::Outs => Ok(Phase::WantName(n, s, List::new(alloc))),
    }
}

fn group_close(
    n: Box<NodeText>,
    s: Section,
    xs: List<Name>,
    ty: Ty,
    c: List<(Name, bool)>,
) -> Result<Phase, Or<Kind>>
    ensures { MovesPhase result (parser.end_group token.Close n.value s xs ty c) }
{
    match s {
        Section::Ins => Ok(Phase::HasIns(add(n, s, xs, ty, c)?)),
        Section::Outs => Ok(Phase::HasOuts(add(n, s, xs, ty, c)?)),
        Section::Locals => Err(wrong()),
    }
}

fn has_group(
    alloc: Global,
    n: Box<NodeText>,
    s: Section,
    xs: List<Name>,
    ty: Ty,
    c: List<(Name, bool)>,
    t: Token,
) -> Result<Phase, Or<Kind>>
    ensures { MovesPhase result (parser.move greatest_height (parser.HasGroup n.value s xs ty c) t) }
{
    match t {
        Token::When => group_when(n, s, xs, ty, c),
        Token::Semicolon => group_semicolon(alloc, n, s, xs, ty, c),
        Token::Close => group_close(n, s, xs, ty, c),
        _ => Err(wrong()),
    }
}

/// The group with one more variable in its clock.
fn add_clock(
    n: Box<NodeText>,
    s: Section,
    xs: List<Name>,
    ty: Ty,
    c: List<(Name, bool)>,
    x: Name,
    polarity: bool,
) -> Result<Phase, Or<Kind>>
    ensures { MovesPhase result (Ok (parser.HasGroup n.value s xs ty (c ++ (x, polarity) ∷ []))) }
{
    let mut c = c;
    c.push((x, polarity))?;
    Ok(Phase::HasGroup(n, s, xs, ty, c))
}

fn want_polarity(
    n: Box<NodeText>,
    s: Section,
    xs: List<Name>,
    ty: Ty,
    c: List<(Name, bool)>,
    t: Token,
) -> Result<Phase, Or<Kind>>
    ensures { MovesPhase result (parser.move greatest_height (parser.WantPolarity n.value s xs ty c) t) }
{
    match t {
        Token::Not => Ok(Phase::WantVariable(n, s, xs, ty, c)),
        Token::Ident(x) => add_clock(n, s, xs, ty, c, x, true),
        _ => Err(wrong()),
    }
}

fn want_variable(
    n: Box<NodeText>,
    s: Section,
    xs: List<Name>,
    ty: Ty,
    c: List<(Name, bool)>,
    t: Token,
) -> Result<Phase, Or<Kind>>
    ensures { MovesPhase result (parser.move greatest_height (parser.WantVariable n.value s xs ty c) t) }
{
    match t {
        Token::Ident(x) => add_clock(n, s, xs, ty, c, x, false),
        _ => Err(wrong()),
    }
}

fn has_ins(n: Box<NodeText>, t: Token) -> Result<Phase, Or<Kind>>
    ensures moves { MovesPhase result (parser.move greatest_height (parser.HasIns n.value) t) }
    ensures memory { NeedsNoMemory result }
{
    match t {
        Token::Returns => Ok(Phase::Returning(n)),
        _ => Err(wrong()),
    }
}

fn returning(alloc: Global, n: Box<NodeText>, t: Token) -> Result<Phase, Or<Kind>>
    ensures moves { MovesPhase result (parser.move greatest_height (parser.Returning n.value) t) }
    ensures memory { NeedsNoMemory result }
{
    match t {
        Token::Open => Ok(Phase::WantName(n, Section::Outs, List::new(alloc))),
        _ => Err(wrong()),
    }
}

fn has_outs(alloc: Global, n: Box<NodeText>, t: Token) -> Result<Phase, Or<Kind>>
    ensures moves { MovesPhase result (parser.move greatest_height (parser.HasOuts n.value) t) }
    ensures memory { NeedsNoMemory result }
{
    match t {
        Token::Semicolon => Ok(Phase::HasHead(n)),
        Token::Var => Ok(Phase::WantName(n, Section::Locals, List::new(alloc))),
        Token::Let => Ok(Phase::Body(n)),
        _ => Err(wrong()),
    }
}

fn has_head(alloc: Global, n: Box<NodeText>, t: Token) -> Result<Phase, Or<Kind>>
    ensures moves { MovesPhase result (parser.move greatest_height (parser.HasHead n.value) t) }
    ensures memory { NeedsNoMemory result }
{
    match t {
        Token::Var => Ok(Phase::WantName(n, Section::Locals, List::new(alloc))),
        Token::Let => Ok(Phase::Body(n)),
        _ => Err(wrong()),
    }
}

fn has_locals(alloc: Global, n: Box<NodeText>, t: Token) -> Result<Phase, Or<Kind>>
    ensures { MovesPhase result (parser.move greatest_height (parser.HasLocals n.value) t) }
{
    match t {
        Token::Ident(x) => Ok(Phase::HasName(n, Section::Locals, one(alloc, x)?)),
        Token::Let => Ok(Phase::Body(n)),
        _ => Err(wrong()),
    }
}

fn has_left(n: Box<NodeText>, x: Name, t: Token) -> Result<Phase, Or<Kind>>
    ensures moves { MovesPhase result (parser.move greatest_height (parser.HasLeft n.value x) t) }
    ensures memory { NeedsNoMemory result }
{
    match t {
        Token::Infix(Infix::Operator(Bin::Eq)) => Ok(Phase::In(n, x)),
        _ => Err(wrong()),
    }
}

/// A name begins an equation.
fn body(n: Box<NodeText>, t: Token) -> Result<Phase, Or<Kind>>
    ensures moves { MovesPhase result (parser.move greatest_height (parser.Body n.value) t) }
    ensures memory { NeedsNoMemory result }
{
    match t {
        Token::Ident(x) => Ok(Phase::HasLeft(n, x)),
        _ => Err(wrong()),
    }
}

/// What a token does, but for an equation's right side and `tel` behind equations.
fn move_on(alloc: Global, phase: Phase, t: Token) -> Result<Phase, Or<Kind>>
    requires { (n : Box NodeText) (x : List ℕ) → phase ≡ phases.In n x → ⊥ }
    ensures { MovesPhase result (parser.move greatest_height (parser_phase_of phase [] machine.Want) t) }
{
    match phase {
        Phase::Idle => idle(t),
        Phase::Told => behind_tel(t),
        Phase::WantNode => want_node(t),
        Phase::HasNode(x) => has_node(alloc, x, t),
        Phase::Opened(n) => behind_open(alloc, n, t),
        Phase::WantName(n, s, xs) => want_name(n, s, xs, t),
        Phase::HasName(n, s, xs) => has_name(n, s, xs, t),
        Phase::WantType(n, s, xs) => want_type(alloc, n, s, xs, t),
        Phase::HasGroup(n, s, xs, ty, c) => has_group(alloc, n, s, xs, ty, c, t),
        Phase::WantPolarity(n, s, xs, ty, c) => want_polarity(n, s, xs, ty, c, t),
        Phase::WantVariable(n, s, xs, ty, c) => want_variable(n, s, xs, ty, c, t),
        Phase::HasIns(n) => has_ins(n, t),
        Phase::Returning(n) => returning(alloc, n, t),
        Phase::HasOuts(n) => has_outs(alloc, n, t),
        Phase::HasHead(n) => has_head(alloc, n, t),
        Phase::HasLocals(n) => has_locals(alloc, n, t),
        Phase::Body(n) => body(n, t),
        Phase::HasLeft(n, x) => has_left(n, x, t),
        Phase::In(_, _) => unreachable!(),
    }
}

/// The next phase.
fn enter(phase: &mut Phase, next: Phase)
    ensures { phase.new ≡ next }
{
    drop(replace(phase, next));
}

/// The next phase, in which no form is begun.
fn move_to(p: &mut Parser, phase: Result<Phase, Or<Kind>>) -> Result<(), Or<Kind>>
    ensures proceeds { (next : Result parser.ParserPhase parser.Kind) → MovesPhase phase next → Proceeds result (state_of p.new) (parser.finish p.old.nodes next) }
    ensures same { IfErr result (λ e. phase ≡ Err e) }
{
    enter(&mut p.phase, phase?);
    p.frames.clear();
    p.mode = Mode::Want;
    Ok(())
}

/// The node is whole.
fn end_node(p: &mut Parser, n: Box<NodeText>) -> Result<(), Or<Kind>>
    ensures { Proceeds result (state_of p.new) (Ok (record { done = p.old.nodes ++ n.value ∷ []; phase = parser.Told })) }
{
    p.nodes.push(Box::into_inner(n))?;
    enter(&mut p.phase, Phase::Told);
    Ok(())
}

/// `tel`, or an equation.
fn end_body(p: &mut Parser, n: Box<NodeText>, t: Token) -> Result<(), Or<Kind>>
    ensures { Proceeds result (state_of p.new) (parser.step_on greatest_height p.old.nodes (parser.Body n.value) t) }
{
    match t {
        Token::Tel => end_node(p, n),
        t => move_to(p, body(n, t)),
    }
}

/// A form is begun that can't fit the greatest height.
fn is_too_deep(frames: &[Frame], mode: &Mode) -> bool
    ensures { (n : OneNode) (x : List ℕ) → parser.checked greatest_height n x (machine.Go (stack_of frames.now) (mode_of mode.now))
        ≡ (if result then Err parser.TooDeep else Ok (parser.In n x (stack_of frames.now) (mode_of mode.now))) }
{
    match mode {
        Mode::Want | Mode::WantClock => {
            if fits(frames) {
                return false;
            }
            true
        }
        Mode::Named(_) | Mode::Has(_) => false,
    }
}

/// The right side of an equation goes on.
fn goes_on(p: &mut Parser, mode: Mode) -> Result<(), Or<Kind>>
    ensures proceeds { (n : Box OneNode) (x : List ℕ) → p.old.phase ≡ phases.In n x → Proceeds result (state_of p.new)
        (parser.finish p.old.nodes (parser.checked greatest_height n.value x (machine.Go (stack_of p.old.frames.items) (mode_of mode)))) }
    ensures memory { NeedsNoMemory result }
{
    if is_too_deep(&p.frames, &mode) {
        return Err(Or::Fault(Kind::TooDeep));
    }
    p.mode = mode;
    Ok(())
}

/// Behind an equation with this right side.
fn with_equation(n: Box<NodeText>, x: Name, right: Box<Term>) -> Result<Phase, Or<Kind>>
    ensures { MovesPhase result (Ok (parser.Body (parser.add_equation n.value x (tm_of right.value)))) }
{
    let mut n = n;
    n.eqs.push(EqText::new(x, Box::into_inner(right)))?;
    Ok(Phase::Body(n))
}

/// The right side of an equation ends.
fn ends(p: &mut Parser, a: Operand) -> Result<(), Or<Kind>>
    requires { IsIn p.old.phase }
    ensures { (n : Box OneNode) (x : List ℕ) → p.old.phase ≡ phases.In n x → Proceeds result (state_of p.new)
        (parser.finish p.old.nodes (Ok (parser.Body (parser.add_equation n.value x (operand_of a).tree)))) }
{
    match replace(&mut p.phase, Phase::Told) {
        Phase::In(n, x) => move_to(p, with_equation(n, x, a.term)),
        _ => unreachable!(),
    }
}

/// A token in the right side of an equation.
fn in_equation(alloc: Global, p: &mut Parser, t: Token) -> Result<(), Or<Kind>>
    requires small { IsSmall t }
    requires inside { IsIn p.old.phase }
    requires room { Fits greatest_height (state_of p.old).phase }
    ensures { ParserSteps result (state_of p.new) (parser.parser_step greatest_height (state_of p.old) t) }
{
    let mode = replace(&mut p.mode, Mode::Want);
    match go(alloc, mode, &mut p.frames, t)? {
        Next::Bad => Err(Or::Fault(Kind::Unexpected)),
        Next::Go(mode) => goes_on(p, mode),
        Next::Done(a) => ends(p, a),
    }
}

/// A name in the right side of an equation. Where an operand must begin, it changes the mode alone.
fn name_in_equation(alloc: Global, p: &mut Parser, x: Name) -> Result<(), Or<Kind>>
    requires inside { IsIn p.old.phase }
    requires room { Fits greatest_height (state_of p.old).phase }
    ensures { ParserSteps result (state_of p.new) (parser.parser_step greatest_height (state_of p.old) (token.Ident x)) }
{
    if let Mode::Want = &p.mode {
        p.mode = Mode::Named(x);
        return Ok(());
    }
    in_equation(alloc, p, Token::Ident(x))
}

/// A token outside the right sides of equations.
fn step_outside(alloc: Global, p: &mut Parser, t: Token) -> Result<(), Or<Kind>>
    requires { IsIn p.old.phase → ⊥ }
    ensures { Proceeds result (state_of p.new) (parser.parser_step greatest_height (state_of p.old) t) }
{
    match replace(&mut p.phase, Phase::Told) {
        Phase::Body(n) => end_body(p, n, t),
        phase => move_to(p, move_on(alloc, phase, t)),
    }
}

/// Takes one token. Behind an error the parser is of no use.
pub fn step(alloc: Global, p: &mut Parser, t: Token) -> Result<(), Or<Kind>>
    requires small { IsSmall t }
    requires room { Fits greatest_height (state_of p.old).phase }
    ensures { ParserSteps result (state_of p.new) (parser.parser_step greatest_height (state_of p.old) t) }
{
    if let Phase::In(_, _) = &p.phase {
        return match t {
            Token::Ident(x) => name_in_equation(alloc, p, x),
            t => in_equation(alloc, p, t),
        };
    }
    step_outside(alloc, p, t)
}
