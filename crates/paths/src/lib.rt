// Semi-global matching: the matching costs, and their sums along eight paths (docs/SPECIFICATION.md, "Path costs").
// Volumes of matching costs, of path costs and of sums are pixel-major: the `count` cells of a pixel are one run.
#![tactic(auto)]

pub mod cost;
mod direction;
mod pixel;
pub mod sums;
