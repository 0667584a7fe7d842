// The row index beside a map: for each row how many of its cells are valid, and the least and the greatest of those, kept so while
// single cells are edited. The caller lends the records.
#![tactic(auto)]

ghost use Rattle.std.specs.Prelude.{◌≡◌, ◌+◌, ◌*◌, ◌≤◌, length};
ghost use Rattle.lists.specs.Rows.{row_of};
ghost use Rattle.refusals.specs.Answered.{first_of};
ghost use Rattle.refusals.specs.Given.{number_in};
ghost use Rattle.rows.specs.Index.{range_in, row_record_of, index_rows, FreshOutcome, EditOutcome};

use maps::{Cell, MapView, Span, check_pixel, check_size};
use refusals::Refusal;

// What the index holds of one row: how many of its cells are valid, and the least and the greatest of those. Where none is valid the
// two are the mark, as a cell of the map is.
#[repr(C)]
#[derive(Clone, Copy, Debug, PartialEq)]
pub struct RowRecord {
    pub count: usize,
    pub least: f32,
    pub greatest: f32,
}

impl RowRecord {
    // The record of a row's cells.
    fn of_row(cells: &[f32]) -> RowRecord
        ensures { result ≡ row_record_of cells.now }
    {
        let mark = f32::from(Cell::Mark);
        let none = Span {
            least: mark,
            greatest: mark,
        };
        let Span { least, greatest } = maps::range_in(cells).unwrap_or(none);
        RowRecord {
            count: maps::valids_in(cells),
            least,
            greatest,
        }
    }

    // The least and the greatest valid cell, where one is valid.
    pub fn range(self) -> Option<Span>
        ensures { result ≡ range_in self }
    {
        (self.count != 0).then_some(Span {
            least: self.least,
            greatest: self.greatest,
        })
    }
}

// An edit: a pixel, and its new cell.
#[derive(Clone, Copy, Debug, PartialEq)]
pub struct Edit {
    pub x: usize,
    pub y: usize,
    pub value: Cell,
}

// The record of row y of rows of `width` cells.
fn row_record(width: usize, cells: &[f32], y: usize) -> RowRecord
    requires { y * width + width ≤ length cells.now }
    ensures { result ≡ row_record_of (row_of width cells.now y) }
{
    let start = y * width;
    RowRecord::of_row(&cells[start..start + width])
}

// What refuses an index of `records` records beside `height` rows.
#[tactic(auto, unfolding(refusals::specs::Answered::first_of))]
fn check_index(records: usize, height: usize) -> Result<(), Refusal>
    ensures { number_in result ≡ first_of (index_rows height records) }
{
    if records == height {
        Ok(())
    } else {
        Err(Refusal::IndexLength)
    }
}

// Works the index out afresh from the cells. A refusal leaves the index as it was.
#[tactic(auto, using(refusals::proofs::Numbers::some), unfolding(refusals::specs::Answered::first_of))]
pub fn fresh_index(index: &mut [RowRecord], map: MapView) -> Result<(), Refusal>
    ensures { FreshOutcome (number_in result) map.entry.width map.entry.height map.entry.cells.now index.old index.new }
{
    check_size(map.width, map.height, map.cells.len())?;
    check_index(index.len(), map.height)?;
    for (y, record) in index.iter_mut().enumerate() {
        *record = row_record(map.width, map.cells, y);
    }
    Ok(())
}

// Edits one cell of the map, and the record of its row with it: one row is read, not the map. A refusal leaves both as they were.
#[tactic(auto, using(refusals::proofs::Numbers::some), unfolding(refusals::specs::Answered::first_of))]
pub fn edit_cell(
    index: &mut [RowRecord],
    width: usize,
    height: usize,
    cells: &mut [f32],
    edit: Edit,
) -> Result<(), Refusal>
    ensures { EditOutcome (number_in result) width height edit cells.old cells.new index.old index.new }
{
    check_pixel(width, height, cells.len(), edit.x, edit.y)?;
    check_index(index.len(), height)?;
    cells[edit.y * width + edit.x] = f32::from(edit.value);
    index[edit.y] = row_record(width, cells, edit.y);
    Ok(())
}
