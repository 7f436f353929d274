//! A run of the large input is never refused: its files are loaded, and the list that is drawn for them is no longer than a schedule may
//! be. Nothing here is run.
#![tactic(auto)]

pub mod laws;
