// The volume of a heap over a rectangle, from points in metres: `metres` has a coordinate in whole millimetres, `side` one direction of the
// rectangle, `site` the rectangle, its cells and its tests, `grid` the cells while they are filled; `heap` has the calls.
#![tactic(auto)]

mod grid;
pub mod heap;
mod metres;
mod side;
pub mod site;
