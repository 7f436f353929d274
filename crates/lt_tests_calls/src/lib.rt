//! Tests of the top call: scripts of whole calls over objects in memory, with what they write and how they end. Beside them the
//! tests that no call of it tells: of monitors against the definition, and of nodes with machines of another kind.
#![tactic(auto)]

#[cfg(test)]
mod agreement;
#[cfg(test)]
mod calls;
#[cfg(test)]
mod drawn;
#[cfg(test)]
mod drift;
#[cfg(test)]
mod emission;
#[cfg(test)]
mod fronts;
#[cfg(test)]
mod limits;
#[cfg(test)]
mod losses;
#[cfg(test)]
mod network;
#[cfg(test)]
mod observers;
#[cfg(test)]
mod order;
#[cfg(test)]
mod outside;
#[cfg(test)]
mod plots;
#[cfg(test)]
mod programs;
#[cfg(test)]
mod script;
#[cfg(test)]
mod setups;
#[cfg(test)]
mod streams;
#[cfg(test)]
mod tables;
#[cfg(test)]
mod texts;
#[cfg(test)]
mod views;
