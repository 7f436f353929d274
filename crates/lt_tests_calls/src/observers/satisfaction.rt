// When a formula of past time holds.

use crate::observers::drawing::Row;
use crate::observers::formula::{Formula, Infix, Prefix};

fn value(rows: &[Row], instant: usize, place: usize) -> bool {
    match rows.get(instant) {
        Some(row) => row[place % 3],
        None => false,
    }
}

/// The formula holds at instant i of a run.
pub fn holds(formula: &Formula, rows: &[Row], i: usize) -> bool {
    match formula {
        Formula::Lit(b) => *b,
        Formula::Out(place) => value(rows, i, *place),
        Formula::Between(Infix::And, a, b) => holds(a, rows, i) && holds(b, rows, i),
        Formula::Between(Infix::Or, a, b) => holds(a, rows, i) || holds(b, rows, i),
        Formula::Between(Infix::Implies, a, b) => !holds(a, rows, i) || holds(b, rows, i),
        Formula::Before(Prefix::Not, a) => !holds(a, rows, i),
        Formula::Before(Prefix::Previous, a) => i > 0 && holds(a, rows, i - 1),
        // At some instant so far.
        Formula::Before(Prefix::Once, a) => {
            let mut some = false;
            for j in 0..=i {
                some = some || holds(a, rows, j);
            }
            some
        }
        // At every instant so far.
        Formula::Before(Prefix::Historically, a) => {
            let mut every = true;
            for j in 0..=i {
                every = every && holds(a, rows, j);
            }
            every
        }
        // The second at some instant so far, and the first at every later one.
        Formula::Between(Infix::Since, a, b) => {
            let mut some = false;
            for j in 0..=i {
                let mut every = holds(b, rows, j);
                for k in j..i {
                    every = every && holds(a, rows, k + 1);
                }
                some = some || every;
            }
            some
        }
    }
}
