//! The picture of a run as SVG: what its marks look like, and where on the sheet they stand. The definitions stand in
//! `specs/`; lengths are hundredths of a pixel.
#![tactic(auto)]

ghost use Rattle.std.specs.Prelude.{◌<◌, ◌≤◌, ℕ};
ghost use Rattle.picture_svg.specs.Sheet.{cycle_width, cycle_x};

mod drawing;
mod looks;
mod picture;
mod sheet;

pub use picture::picture_text;

/// Of two cycles the later one begins further to the right, and a mission's cycles all end on the plot.
pub fn cycles_have_places()
    ensures rising { (cycles c d : ℕ) → c < d → cycle_x (cycle_width cycles) c < cycle_x (cycle_width cycles) d }
    ensures within { (cycles c : ℕ) → cycles ≤ 2000 → c ≤ cycles → cycle_x (cycle_width cycles) c ≤ 114400 }
{}
