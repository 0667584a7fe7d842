// The choice of a disparity for each pixel, and the left-right test (docs/SPECIFICATION.md).
#![tactic(auto)]

pub mod block;
pub mod left_right;
pub mod semi_global;
pub mod subpixel;
