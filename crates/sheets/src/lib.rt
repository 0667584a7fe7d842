// A map that can be mailed: its sheet as bytes, written and read back. `limits` has what a version of the sheet holds, `number` the
// one reader and the one writer of a number, `code` the number that stands for a cell; `writing` and `reading` have the calls.
#![tactic(auto)]

pub mod code;
mod limits;
mod number;
pub mod reading;
pub mod writing;
