//! Where instants and values stand in a picture of whole numbers: charts, and the scales of rows.
#![tactic(auto)]

mod band;
mod cells;
mod chart;
mod room;
mod scale;

pub use band::{Band, band_at, base, next_top, y_at};
pub use cells::{cell_at, has_level, is_there};
pub use chart::{
    Chart, cell_width, end_of, is_end_shown, is_shown, picture_width, right, share, start_of, x_at,
    x_middle,
};
pub use room::{dots_fit, tick_step, values_fit};
pub use scale::{Scale, digits, floor, level, scale_of, scale_width, write_level};
