// Where the values of a row stand.
ghost use Rattle.std.specs.Prelude.{◌≡◌, ◌≤◌, ◌<◌, ◌^◌};
ghost use Rattle.lt_scale.specs.Band.{band_height, top_below, band_in, band_base, level_y};

use crate::{Scale, share};

/// The place of a row: its top, the height of its scale, and the scale.
#[derive(Clone, Copy, Drop)]
pub struct Band {
    pub top: u32,
    pub height: u32,
    pub scale: Scale,
}

fn height_of(truth: bool) -> u32
    ensures { result ≡ band_height truth }
{
    if truth { 20 } else { 56 }
}

/// The top of the row below one.
#[tactic(auto, unfolding(crate::specs::Band::top_below))]
pub fn next_top(top: u32, truth: bool) -> u32
    ensures { result ≡ top_below top truth }
{
    top.saturating_add(height_of(truth) + 18)
}

/// The place of a row with this scale.
#[tactic(auto, unfolding(crate::specs::Band::band_in))]
pub fn band_at(top: u32, scale: Scale) -> Band
    ensures { result ≡ band_in top scale }
{
    Band {
        top,
        height: height_of(scale.truth),
        scale,
    }
}

/// The foot of the scale.
#[tactic(auto, unfolding(crate::specs::Band::band_base))]
pub fn base(band: &Band) -> u64
    ensures value { result ≡ band_base band.now }
    ensures bounded { result < 2 ^ 34 }
    ensures within { band.now.height ≤ result }
{
    u64::from(band.top) + 9 + u64::from(band.height)
}

/// The height at which a level stands.
#[tactic(auto, unfolding(crate::specs::Band::level_y))]
pub fn y_at(band: &Band, level: u64) -> u64
    ensures value { result ≡ level_y band.now level }
    ensures bounded { result < 2 ^ 34 }
{
    let above = level.saturating_sub(band.scale.low);
    let whole = band.scale.high.saturating_sub(band.scale.low);
    base(band) - u64::from(share(above, whole, band.height))
}
