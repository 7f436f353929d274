// Trees of the subset of C.

use lt_base::List;

/// A variable of an emitted file.
#[derive(Clone, Copy)]
pub enum Variable {
    /// A slot of the step code, by its number.
    Slot(u32),
    /// What this activation did.
    Did,
    /// Whether an instant's inputs are at hand.
    More,
    /// The controller's phase.
    Phase,
    /// What is left of its countdown.
    Left,
    /// The bit of the messages that were sent last.
    Sent,
    /// The bit of the last acknowledgements.
    Executed,
    /// The bit in the inbox for the data of a node, by the node's number.
    Bit(u32),
    /// The bit that was read there last.
    Read(u32),
    /// The value there, at a place of the payload.
    Payload(u32, u32),
    /// The bit in the inbox for a node's acknowledgements.
    Ack(u32),
    /// The bit that was read there last.
    Seen(u32),
    /// An input of the program, by the variable's number.
    Input(u32),
    /// An output of the program.
    Output(u32),
    /// Whether an output has a value at this instant.
    Has(u32),
    /// The bit of a message that comes or goes.
    MessageBit,
    /// A value of it, at a place of its payload.
    Message(u32),
    /// The bit of an acknowledgement that comes.
    AnswerBit,
    /// How many instants were executed, where links lose messages.
    Executions,
    /// How many messages were sent there.
    Sendings,
    /// The greatest number of a message from a node.
    Newest(u32),
    /// The greatest number of an acknowledgement from a node.
    Answered(u32),
    /// The number of a message that comes or goes.
    MessageNumber,
    /// The number of an acknowledgement that comes.
    AnswerNumber,
    /// A value of the last message to a node, which is sent again where links lose messages.
    Posted(u32, u32),
}

/// A function of two 64-bit numbers at the head of the file.
#[derive(Clone, Copy)]
pub enum Function {
    Add,
    Sub,
    Mul,
    Div,
    Mod,
    Min,
    Max,
    Gcd,
}

/// An operator of C.
#[derive(Clone, Copy)]
pub enum Symbol {
    Eq,
    Ne,
    Lt,
    Le,
    Gt,
    Ge,
    And,
    Or,
}

/// An expression.
#[derive(Drop)]
pub enum Expression {
    Number(i64),
    Truth(bool),
    Var(Variable),
    /// The number that makes 0 with it, by the function at the head.
    Negate(Box<Expression>),
    Call(Function, Box<Expression>, Box<Expression>),
    Not(Box<Expression>),
    Join(Symbol, Box<Expression>, Box<Expression>),
    /// The second where the first is true, and else the third.
    Choice(Box<Expression>, Box<Expression>, Box<Expression>),
}

/// A statement.
#[derive(Drop)]
pub enum Action {
    Nothing,
    Assign(Variable, Expression),
    /// The first where the expression is true, and else the second.
    Branch(Expression, Box<Action>, Box<Action>),
    /// One after the other.
    Both(Box<Action>, Box<Action>),
    /// The call of the step of the part.
    Run,
    /// A statement with a comment before it.
    Noted(List<u8>, Box<Action>),
}
