// Writing a sheet: the cells are looked at first, so that a refusal comes before any byte is written.
ghost use Rattle.std.specs.Prelude.{◌≡◌, ◌+◌, ◌*◌, ◌≤◌, true, length};
ghost use Rattle.lists.specs.Stores.{Wrote};
ghost use Rattle.options.specs.Limits.{side_most};
ghost use Rattle.maps.specs.Map.{good_size};
ghost use Rattle.sheets.specs.Sheet.{head_bytes, cells_bytes, kind_sheet, sheet_of};
ghost use Rattle.refusals.specs.Given.{given_back};
ghost use Rattle.refusals.specs.Writes.{byte_count, WriteOutcome};
ghost use Rattle.refusals.specs.Steps.{NotRefused, list_in};

use crate::code::Kind;
use crate::limits::VERSION;
use crate::number::{number_length, put_number};
use maps::check_size;
use refusals::Refusal;

// How many bytes the cells take.
fn cells_length(kind: Kind, cells: &[f32]) -> Result<usize, Refusal>
    requires { length cells.now ≤ side_most * side_most }
    ensures { given_back result ≡ byte_count (cells_bytes kind cells.now) }
{
    let mut total: usize = 0;
    for x in cells {
        let code = kind.code_of(*x)?;
        total += number_length(code);
    }
    Ok(total)
}

// How many bytes the head takes.
fn head_length(kind: Kind, width: usize, height: usize) -> usize
    requires width_le_side_most { width ≤ side_most }
    requires height_le_side_most { height ≤ side_most }
    ensures { result ≡ length (head_bytes kind width height) }
{
    number_length(VERSION)
        + number_length(u64::from(kind))
        + number_length(width as u64)
        + number_length(height as u64)
}

// How many bytes the sheet of a kind takes.
fn kind_length(kind: Kind, cells: &[f32], width: usize, height: usize) -> Result<usize, Refusal>
    requires { good_size width height (length cells.now) ≡ true }
    ensures { given_back result ≡ byte_count (kind_sheet kind width height cells.now) }
{
    let n = cells_length(kind, cells)?;
    Ok(head_length(kind, width, height) + n)
}

// How many bytes the sheet of a map takes.
pub fn sheet_length(cells: &[f32], width: usize, height: usize, kind: u64) -> Result<usize, Refusal>
    ensures { given_back result ≡ byte_count (sheet_of kind width height cells.now) }
{
    check_size(width, height, cells.len())?;
    let kind = Kind::try_from(kind)?;
    kind_length(kind, cells, width, height)
}

// Puts the head at the front of `out`, and answers the place past it.
fn put_head(kind: Kind, width: usize, height: usize, out: &mut [u8]) -> usize
    requires width_le_side_most { width ≤ side_most }
    requires height_le_side_most { height ≤ side_most }
    requires height_in_bounds { length (head_bytes kind width height) ≤ length out.old }
    ensures { Wrote out.old 0 (head_bytes kind width height) out.new result }
{
    let a = put_number(VERSION, out, 0);
    let b = put_number(u64::from(kind), out, a);
    let c = put_number(width as u64, out, b);
    put_number(height as u64, out, c)
}

// Puts the cells into `out` from `at` on, and answers the place past them. No cell is refused: the sheet's length was worked out.
fn put_cells(kind: Kind, cells: &[f32], out: &mut [u8], at: usize) -> usize
    requires not_refused { NotRefused (cells_bytes kind cells.now) }
    requires cells_in_bounds { at + length (list_in (cells_bytes kind cells.now)) ≤ length out.old }
    ensures { Wrote out.old at (list_in (cells_bytes kind cells.now)) out.new result }
{
    let mut next = at;
    for x in cells {
        let Ok(code) = kind.code_of(*x) else {
            return next;
        };
        next = put_number(code, out, next);
    }
    next
}

// Writes the sheet of a kind.
fn write_kind(
    kind: Kind,
    cells: &[f32],
    width: usize,
    height: usize,
    out: &mut [u8],
) -> Result<usize, Refusal>
    requires { good_size width height (length cells.now) ≡ true }
    ensures { WriteOutcome 33 result (kind_sheet kind width height cells.now) out.old out.new }
{
    let n = kind_length(kind, cells, width, height)?;
    if out.len() < n {
        return Err(Refusal::OutputTooShort);
    }
    let at = put_head(kind, width, height, out);
    Ok(put_cells(kind, cells, out, at))
}

// Writes the sheet of a map of a kind at the front of `out`, and answers its byte count; bytes beyond it are left as they were.
pub fn write_sheet(
    cells: &[f32],
    width: usize,
    height: usize,
    kind: u64,
    out: &mut [u8],
) -> Result<usize, Refusal>
    ensures { WriteOutcome 33 result (sheet_of kind width height cells.now) out.old out.new }
{
    check_size(width, height, cells.len())?;
    let kind = Kind::try_from(kind)?;
    write_kind(kind, cells, width, height, out)
}
