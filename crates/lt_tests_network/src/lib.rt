//! Tests of the way from a checked program to its flat form, its machines, its streams and its nodes, as scripts of questions; and
//! of the architecture and both protocols, by their public calls.
#![tactic(auto)]

#[cfg(test)]
mod answers;
#[cfg(test)]
mod architecture;
#[cfg(test)]
mod controllers;
#[cfg(test)]
mod fixtures;
#[cfg(test)]
mod flat_forms;
#[cfg(test)]
mod inboxes;
#[cfg(test)]
mod layouts;
#[cfg(test)]
mod lossy;
#[cfg(test)]
mod machines;
#[cfg(test)]
mod programs;
#[cfg(test)]
mod protocols;
#[cfg(test)]
mod script;
#[cfg(test)]
mod shown;
#[cfg(test)]
mod tables;
#[cfg(test)]
mod timings;
