// The rectangle and its cells, the tests of a site, and where in it a point falls.
ghost use Rattle.std.specs.Prelude.{◌≡◌, true, ◌*◌, IfOk};
ghost use Rattle.refusals.specs.Answered.{first_of};
ghost use Rattle.refusals.specs.Given.{number_in};
ghost use Rattle.volume.specs.Metres.{is_near};
ghost use Rattle.volume.specs.Rectangle.{near_site, good_cell, columns_of, rows_of, cells_of, shape_of};
ghost use Rattle.volume.specs.Heights.{height_of};
ghost use Rattle.volume.specs.Outcome.{site_rows};
ghost use Rattle.volume.specs.Inner.{SiteFits, fall_of};

use crate::metres::Spot;
use crate::side::{Side, above_by, is_near};
use refusals::Refusal;

// The most cells.
const CELLS_MOST: usize = 65536;

// A rectangle, the side of a cell, and the floor's depth, all in whole millimetres. Left and top are the low edges: x goes to the
// right and y downwards, as in the pictures.
#[derive(Clone, Copy)]
pub struct Site {
    pub left: i64,
    pub right: i64,
    pub top: i64,
    pub bottom: i64,
    pub cell: usize,
    pub floor: i64,
}

// How many cells a row has, and how many rows there are.
#[derive(Clone, Copy)]
pub struct Shape {
    pub columns: usize,
    pub rows: usize,
}

// A site that no test refuses, with its grid's shape.
#[derive(Clone, Copy)]
pub struct Plan {
    pub site: Site,
    pub shape: Shape,
    pub ghost fits: { SiteFits site },
    pub ghost shaped: { shape ≡ shape_of site },
}

impl Site {
    // Whether the edges and the floor depth are near.
    fn is_near(self) -> bool
        ensures { result ≡ near_site self }
    {
        is_near(self.left)
            && is_near(self.right)
            && is_near(self.top)
            && is_near(self.bottom)
            && is_near(self.floor)
    }

    // Whether the cell side is from 10 to 10,000 mm.
    #[tactic(auto, unfolding(crate::specs::Rectangle::good_cell))]
    fn has_good_cell(self) -> bool
        ensures { result ≡ good_cell self }
    {
        10 <= self.cell && self.cell <= 10000
    }

    // The rectangle from left to right. This and the next function differ in the edges that they read, and in nothing else.
    fn across(self) -> Side
        requires near { near_site self ≡ true }
        requires cell { good_cell self ≡ true }
        ensures low { result.low ≡ self.left }
        ensures high { result.high ≡ self.right }
        ensures cell { result.cell ≡ self.cell }
    {
        Side {
            low: self.left,
            high: self.right,
            cell: self.cell,
        }
    }

    // The rectangle from its top down.
    fn down(self) -> Side
        requires near { near_site self ≡ true }
        requires cell { good_cell self ≡ true }
        ensures low { result.low ≡ self.top }
        ensures high { result.high ≡ self.bottom }
        ensures cell { result.cell ≡ self.cell }
    {
        Side {
            low: self.top,
            high: self.bottom,
            cell: self.cell,
        }
    }

    // How many cells a row has, how many rows there are, and all cells: of any near site with a good cell, also of one that is refused
    // for its sides or for too many cells.
    pub fn columns(self) -> usize
        requires near { near_site self ≡ true }
        requires cell { good_cell self ≡ true }
        ensures { result ≡ columns_of self }
    {
        self.across().cells()
    }

    pub fn rows(self) -> usize
        requires near { near_site self ≡ true }
        requires cell { good_cell self ≡ true }
        ensures { result ≡ rows_of self }
    {
        self.down().cells()
    }

    pub fn cells(self) -> usize
        requires near { near_site self ≡ true }
        requires cell { good_cell self ≡ true }
        ensures { result ≡ cells_of self }
    {
        self.columns() * self.rows()
    }
}

// A site's plan, or its refusal; `good` says whether the points are good, which are refused after the cell and before the sides.
#[tactic(auto, unfolding(refusals::specs::Answered::first_of))]
pub fn check_site(good: bool, site: Site) -> Result<Plan, Refusal>
    ensures number { number_in result ≡ first_of (site_rows good site) }
    ensures plan { IfOk result (λ plan. plan.site ≡ site) }
{
    if !site.has_good_cell() {
        return Err(Refusal::CellSide);
    }
    if !good || !site.is_near() {
        return Err(Refusal::DistanceOutOfRange);
    }
    let across = site.across();
    let down = site.down();
    if !across.is_whole() || !down.is_whole() {
        return Err(Refusal::RectangleSides);
    }
    let shape = Shape {
        columns: across.cells(),
        rows: down.cells(),
    };
    if CELLS_MOST < shape.columns * shape.rows {
        return Err(Refusal::TooManyCells);
    }
    Ok(Plan { site, shape })
}

impl Plan {
    // How many cells the grid has.
    pub fn cells(self) -> usize
        ensures { result ≡ cells_of self.site }
    {
        self.shape.columns * self.shape.rows
    }

    // The area of a cell, in square millimetres.
    pub fn cell_area(self) -> u64
        ensures { result ≡ self.site.cell * self.site.cell }
    {
        (self.site.cell * self.site.cell) as u64
    }

    // The number of the cell that a point falls in, if one: the cells are numbered by rows.
    pub fn cell_at(self, at: Spot) -> Option<usize>
        ensures { result ≡ fall_of self.site at }
    {
        let column = self.site.across().cell_at(at.x)?;
        let row = self.site.down().cell_at(at.y)?;
        Some(row * self.shape.columns + column)
    }

    // A point's height over the floor.
    pub fn height_of(self, at: Spot) -> u64
        requires { is_near at.z ≡ true }
        ensures { result ≡ height_of self.site at }
    {
        above_by(self.site.floor, at.z) as u64
    }
}
