// Pictures and maps of other shops: PGM read, PFM written and read, slices in and slices out. `header` and `scale` have the parts of a
// header, `order` the four bytes of a cell, `raster` a size judged with its bytes; `pgm`, `writing` and `pfm` have the calls.
#![tactic(auto)]

mod header;
mod order;
pub mod pfm;
pub mod pgm;
pub mod raster;
mod scale;
pub mod writing;
