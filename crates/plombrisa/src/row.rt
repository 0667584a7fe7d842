// The row index beside a map, for hosts: 0, or the number of the refusal, which leaves what is lent as it was.
ghost use Rattle.std.specs.Prelude.{◌≡◌};
ghost use Rattle.rows.specs.Index.{FreshOutcome, EditOutcome};
ghost use Rattle.plombrisa.specs.Options.{edit_of};

use crate::told::number;
use maps::{Cell, MapView};
use rows::{Edit, RowRecord, edit_cell, fresh_index};

// Works out the record of each row.
#[unsafe(no_mangle)]
pub extern "C" fn plombrisa_fresh_index(
    cells: &[f32],
    width: usize,
    height: usize,
    index: &mut [RowRecord],
) -> u32
    ensures { FreshOutcome result width height cells.now index.old index.new }
{
    number(fresh_index(index, MapView::new(width, height, cells)))
}

// The edit of a pixel to a number, whose NaN is the mark.
fn edit_of(x: usize, y: usize, value: f32) -> Edit
    ensures { result ≡ edit_of x y value }
{
    Edit {
        x,
        y,
        value: Cell::from(value),
    }
}

// Edits one cell, and the record of its row with it.
#[unsafe(no_mangle)]
pub extern "C" fn plombrisa_edit_cell(
    cells: &mut [f32],
    width: usize,
    height: usize,
    x: usize,
    y: usize,
    value: f32,
    index: &mut [RowRecord],
) -> u32
    ensures { EditOutcome result width height (edit_of x y value) cells.old cells.new index.old index.new }
{
    let edit = edit_of(x, y, value);
    number(edit_cell(index, width, height, cells, edit))
}
