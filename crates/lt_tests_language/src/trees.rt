// Trees of texts, their faults, and canonical texts.

use crate::programs::tell_names;
use crate::texts::{tell, tell_bytes};
use lt_base::{Memory, Or};
use lt_print::laws::parse_of_print;
use lt_print::print;
use lt_syntax::{SyntaxFault, Tree, parse};
use std::alloc::Global;

/// Tells something of what is parsed, or where its fault is, and what it is.
pub fn tell_parsed(
    alloc: Global,
    line: &mut String,
    what: &str,
    text: &[u8],
) -> Result<(), Memory> {
    match parse(alloc, text) {
        Ok(tree) => {
            let told = tell_of_tree(alloc, line, what, &tree);
            drop(tree);
            told
        }
        Err(Or::Fault(fault)) => tell_fault(line, fault),
        Err(Or::Memory) => Err(Memory),
    }
}

// How many nodes a tree has, its canonical text, or something of its program.
fn tell_of_tree(alloc: Global, line: &mut String, what: &str, tree: &Tree) -> Result<(), Memory> {
    if what == "tree" {
        return tell(line, tree.nodes.len());
    }
    if what == "canonical" {
        return tell_canonical(alloc, line, tree);
    }
    tell_names(alloc, line, what, tree)
}

fn tell_fault(line: &mut String, fault: SyntaxFault) -> Result<(), Memory> {
    tell(line, fault.at)?;
    tell(line, fault.kind)
}

// Tells the canonical text of a tree, after it is copied, printed and parsed again.
fn tell_canonical(alloc: Global, line: &mut String, tree: &Tree) -> Result<(), Memory> {
    match tree.copy() {
        Ok(copy) => {
            let told = tell_again(alloc, line, &copy);
            drop(copy);
            told
        }
        Err(_) => Err(Memory),
    }
}

fn tell_again(alloc: Global, line: &mut String, copy: &Tree) -> Result<(), Memory> {
    match parse_of_print(alloc, copy) {
        Ok(tree) => {
            let told = tell_printed(alloc, line, &tree);
            drop(tree);
            told
        }
        Err(_) => Err(Memory),
    }
}

fn tell_printed(alloc: Global, line: &mut String, tree: &Tree) -> Result<(), Memory> {
    match print(alloc, tree) {
        Ok(printed) => tell_bytes(line, printed.as_slice()),
        Err(_) => Err(Memory),
    }
}
