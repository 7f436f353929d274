// Formulas and runs that a generator draws.

use crate::observers::formula::{Formula, Infix, Prefix};
use lt_base::Memory;
use rand_core::Rng;
use rand_xoshiro::SplitMix64;
use std::alloc::Global;

/// The truth values of the outputs at one instant.
pub type Row = [bool; 3];

fn prefix(dice: &mut SplitMix64) -> Prefix {
    match dice.next_u64() % 4 {
        0 => Prefix::Not,
        1 => Prefix::Previous,
        2 => Prefix::Once,
        _ => Prefix::Historically,
    }
}

fn infix(dice: &mut SplitMix64) -> Infix {
    match dice.next_u64() % 5 {
        0 => Infix::And,
        1 => Infix::Or,
        2 => Infix::Implies,
        _ => Infix::Since,
    }
}

/// One of eight leaves, of which two are no outputs.
fn leaf(dice: &mut SplitMix64) -> Formula {
    match dice.next_u64() % 8 {
        0 => Formula::Lit(false),
        1 => Formula::Lit(true),
        n => Formula::Out((n % 3) as usize),
    }
}

/// A formula of at most this height, and of height 1 where it is 0.
pub fn draw(alloc: Global, dice: &mut SplitMix64, height: u32) -> Result<Box<Formula>, Memory> {
    let formula = match dice.next_u64() % 8 {
        n if n == 0 || height <= 1 => leaf(dice),
        1..=3 => Formula::Before(prefix(dice), draw(alloc, dice, height - 1)?),
        _ => {
            let first = draw(alloc, dice, height - 1)?;
            Formula::Between(infix(dice), first, draw(alloc, dice, height - 1)?)
        }
    };
    Ok(Box::new(alloc, formula)?)
}

/// A run of at most twelve instants.
pub fn draw_run(alloc: Global, dice: &mut SplitMix64) -> Result<Vec<Row>, Memory> {
    let mut rows = Vec::new(alloc);
    for _instant in 0..dice.next_u64() % 13 {
        let word = dice.next_u64();
        rows.push([word % 2 == 1, word / 2 % 2 == 1, word / 4 % 2 == 1])?;
    }
    Ok(rows)
}
