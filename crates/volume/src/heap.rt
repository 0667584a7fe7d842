// The volume of a heap: the calls.
ghost use Rattle.std.specs.Prelude.{◌≡◌, true, length, IfOk};
ghost use Rattle.refusals.specs.Answered.{first_of};
ghost use Rattle.refusals.specs.Given.{given_back, number_in};
ghost use Rattle.volume.specs.Metres.{are_good, spots_in};
ghost use Rattle.volume.specs.Rectangle.{cells_of};
ghost use Rattle.volume.specs.Heights.{grid_of, figures_of};
ghost use Rattle.volume.specs.Outcome.{grid_shape, heap_rows, HeapOutcome};

use crate::grid::{drop_points, settle};
use crate::metres::Points;
use crate::site::{Plan, Shape, Site, check_site};
use refusals::Refusal;

// The volume in cubic millimetres, the points in the rectangle and outside, and the cells without points.
#[derive(Clone, Copy)]
pub struct Figures {
    pub volume: u64,
    pub inside: usize,
    pub outside: usize,
    pub empty: usize,
}

// The cells of a row and the rows of a site's grid, for a caller who is to lend it.
pub fn heap_shape(site: Site) -> Result<Shape, Refusal>
    ensures { given_back result ≡ grid_shape site }
{
    let plan = check_site(true, site)?;
    Ok(plan.shape)
}

// The plan of points and a site for a grid of so many cells, or the refusal.
fn check_heap(cells: usize, site: Site, points: Points) -> Result<Plan, Refusal>
    ensures number { number_in result ≡ first_of (heap_rows site points.entry.xs.now points.entry.ys.now points.entry.zs.now cells) }
    ensures plan { IfOk result (λ plan. plan.site ≡ site) }
{
    let plan = check_site(points.are_good(), site)?;
    if cells != plan.cells() {
        return Err(Refusal::GridLength);
    }
    Ok(plan)
}

// Fills the grid and adds it up.
fn measure(grid: &mut [u64], plan: Plan, points: Points) -> Figures
    requires good { are_good points ≡ true }
    requires long { length grid.old ≡ cells_of plan.site }
    ensures figures { result ≡ figures_of plan.site (spots_in points.entry) }
    ensures heights { grid.new ≡ grid_of plan.site (spots_in points.entry) }
{
    grid.fill(0);
    let inside = drop_points(grid, plan, points);
    let totals = settle(grid);
    Figures {
        volume: totals.height * plan.cell_area(),
        inside,
        outside: points.xs.len() - inside,
        empty: totals.empty,
    }
}

// Measures the heap of points whose coordinates are given, in metres. The grid is to have a cell for each of the site's, and holds
// the heights afterwards, by rows.
pub fn heap_volume(
    grid: &mut [u64],
    xs: &[f64],
    ys: &[f64],
    zs: &[f64],
    site: Site,
) -> Result<Figures, Refusal>
    ensures { HeapOutcome result site xs.now ys.now zs.now grid.old grid.new }
{
    let points = Points { xs, ys, zs };
    let plan = check_heap(grid.len(), site, points)?;
    Ok(measure(grid, plan, points))
}
