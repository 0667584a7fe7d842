// The grid while it is filled: a cell holds 0 until a point falls in it, then one more than the greatest height; in the end the heights.
ghost use Rattle.std.specs.Prelude.{◌≡◌, true, cond, map, ◌-◌, ◌≤◌, eqb, length, get_or, replicate};
ghost use Rattle.lists.specs.Sums.{sum_to};
ghost use Rattle.volume.specs.Metres.{is_near, are_good, spots_in};
ghost use Rattle.volume.specs.Rectangle.{cells_of, cells_most};
ghost use Rattle.volume.specs.Heights.{is_inside, height_of, inside_count};
ghost use Rattle.volume.specs.Inner.{fall_of, raised_at, levels_of, LevelsFit};

use crate::metres::{Points, Spot};
use crate::site::Plan;

// The sum of a grid's heights, and how many cells are empty.
#[derive(Clone, Copy)]
pub struct Totals {
    pub height: u64,
    pub empty: usize,
}

// Lets a point fall, which raises the cell that it falls in to its level. The answer is whether it lies in the rectangle.
fn drop_point(grid: &mut [u64], plan: Plan, at: Spot) -> bool
    requires near { is_near at.z ≡ true }
    requires long { length grid.old ≡ cells_of plan.site }
    ensures inside { result ≡ is_inside plan.site at }
    ensures raised { grid.new ≡ raised_at (fall_of plan.site at) (height_of plan.site at) grid.old }
{
    let Some(cell) = plan.cell_at(at) else {
        return false;
    };
    let level = plan.height_of(at) + 1;
    grid[cell] = grid[cell].max(level);
    true
}

// Lets all points fall on an empty grid. The answer is how many lie in the rectangle.
pub fn drop_points(grid: &mut [u64], plan: Plan, points: Points) -> usize
    requires good { are_good points ≡ true }
    requires empty { grid.old ≡ replicate (cells_of plan.site) 0 }
    ensures inside { result ≡ inside_count plan.site (spots_in points.entry) }
    ensures levels { grid.new ≡ levels_of plan.site (spots_in points.entry) }
{
    let mut inside = 0;
    for ((x, y), z) in points.xs.iter().zip(points.ys).zip(points.zs) {
        if drop_point(grid, plan, Spot::from_metres(*x, *y, *z)) {
            inside += 1;
        }
    }
    inside
}

// Turns the levels into heights, and adds up.
pub fn settle(grid: &mut [u64]) -> Totals
    requires few { length grid.old ≤ cells_most }
    requires low { LevelsFit grid.old }
    ensures height { result.height ≡ sum_to (length grid.old) (λ i. get_or grid.old i 0 - 1) }
    ensures empty { result.empty ≡ sum_to (length grid.old) (λ i. cond (eqb (get_or grid.old i 0) 0) 1 0) }
    ensures heights { grid.new ≡ map (λ v. v - 1) grid.old }
{
    let mut height = 0;
    let mut empty = 0;
    for cell in grid.iter_mut() {
        if *cell == 0 {
            empty += 1;
        }
        *cell = cell.saturating_sub(1);
        height += *cell;
    }
    Totals { height, empty }
}
