//! Pieces of a picture as SVG text: rectangles, straight lines, words, signs that the picture has drawn before, and
//! what stands before and after them. Lengths are whole numbers, in the picture's own unit.
#![tactic(auto)]

mod pieces;

pub use pieces::{Corner, Side, close, label, line, open, rect, sign};
