//! Tests of the layers below the machines, scripts of questions: what texts, tokens, programs and graphs are answered; the objects
//! of the outside; the checks of a program and the lines of its faults; and what inputs, schedules, setups and words read as.
#![tactic(auto)]

#[cfg(test)]
mod answers;
#[cfg(test)]
mod base;
#[cfg(test)]
mod cause;
#[cfg(test)]
mod check;
#[cfg(test)]
mod config;
#[cfg(test)]
mod files;
#[cfg(test)]
mod fits;
#[cfg(test)]
mod fixtures;
#[cfg(test)]
mod front;
#[cfg(test)]
mod graph;
#[cfg(test)]
mod inputs;
#[cfg(test)]
mod io;
#[cfg(test)]
mod language;
#[cfg(test)]
mod programs;
#[cfg(test)]
mod repeats;
#[cfg(test)]
mod rows;
#[cfg(test)]
mod script;
#[cfg(test)]
mod texts;
#[cfg(test)]
mod tokens;
#[cfg(test)]
mod trees;
#[cfg(test)]
mod words;
