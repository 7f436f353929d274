//! Plots of programs from their files: the outputs over instants as one SVG, with a run along a schedule or without one, and with what an
//! observer makes of it.
#![tactic(auto)]

mod course;
mod drawing;
pub mod laws;
mod picture;
mod plotting;
mod printing;
mod rows;
mod view;
mod window;
mod words;

pub use plotting::plot;
pub use view::PlotView;
