// Formulas of past time as they are drawn, and their texts.

use lt_base::Memory;

/// A word before its operand.
#[derive(Clone, Copy)]
pub enum Prefix {
    Not,
    Previous,
    Once,
    Historically,
}

/// A word or symbol between its operands.
#[derive(Clone, Copy)]
pub enum Infix {
    And,
    Or,
    Since,
    Implies,
}

#[derive(Drop)]
pub enum Formula {
    Lit(bool),
    /// An output, by its place.
    Out(usize),
    Before(Prefix, Box<Formula>),
    Between(Infix, Box<Formula>, Box<Formula>),
}

/// The names of the outputs.
pub const NAMES: [&str; 3] = ["x", "y", "z"];

fn prefix_word(word: Prefix) -> &'static str {
    match word {
        Prefix::Not => "not ",
        Prefix::Previous => "previous ",
        Prefix::Once => "once ",
        Prefix::Historically => "historically ",
    }
}

/// What stands between the operands, and the levels of the grammar's lines on which it stands, and its left and its right operand.
fn infix_word(word: Infix) -> (&'static str, [u8; 3]) {
    match word {
        Infix::Implies => (" => ", [1, 2, 1]),
        Infix::Since => (" since ", [2, 2, 3]),
        Infix::Or => (" or ", [3, 3, 4]),
        Infix::And => (" and ", [4, 4, 5]),
    }
}

/// Appends the text of a formula, in parentheses where its line of the grammar is below this level, and without where it is not.
pub fn put(formula: &Formula, least: u8, text: &mut String) -> Result<(), Memory> {
    match formula {
        Formula::Lit(true) => text.push_str("true")?,
        Formula::Lit(false) => text.push_str("false")?,
        Formula::Out(place) => text.push_str(NAMES[*place % 3])?,
        Formula::Before(word, a) => {
            text.push_str(prefix_word(*word))?;
            put(a, 5, text)?;
        }
        Formula::Between(word, a, b) => {
            let (name, [own, left, right]) = infix_word(*word);
            text.push_str(if own < least { "(" } else { "" })?;
            put(a, left, text)?;
            text.push_str(name)?;
            put(b, right, text)?;
            text.push_str(if own < least { ")" } else { "" })?;
        }
    }
    Ok(())
}
