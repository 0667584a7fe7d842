// Writing a PFM map: its size and the output's length are judged first, so that a refusal comes before any byte is written.
ghost use Rattle.std.specs.Prelude.{◌≡◌, ◌*◌, length};
ghost use Rattle.lists.specs.Rows.{bottom_up};
ghost use Rattle.refusals.specs.Given.{given_back};
ghost use Rattle.refusals.specs.Writes.{byte_count, WriteOutcome};
ghost use Rattle.texts.specs.Pen.{HasRoom, Writes};
ghost use Rattle.netpbm.specs.Pfm.{cells_bytes, pfm_head, pfm_of};

use crate::order::{Order, put_cell};
use maps::check_size;
use refusals::Refusal;
use texts::{Pen, places};

// How many bytes the header takes.
fn head_length(width: usize, height: usize) -> usize
    ensures { result ≡ length (pfm_head width height) }
{
    places(width) + places(height) + 10
}

// How many bytes the file of a map takes.
#[tactic(auto, using(crate::proofs::PfmWritings::pfm_counted, crate::proofs::PfmWritings::head_most), unfolding(refusals::specs::Answered::first_of, crate::specs::Pfm::pfm_of))]
pub fn pfm_length(cells: &[f32], width: usize, height: usize) -> Result<usize, Refusal>
    ensures { given_back result ≡ byte_count (pfm_of width height cells.now) }
{
    check_size(width, height, cells.len())?;
    Ok(head_length(width, height) + 4 * cells.len())
}

// Puts the header where a pen stands.
fn put_head(width: usize, height: usize, pen: &mut Pen)
    requires { HasRoom pen.old (length (pfm_head width height)) }
    ensures { Writes pen.old (pfm_head width height) pen.new }
{
    pen.put_bytes(b"Pf\n");
    pen.put_decimal(width);
    pen.put_byte(b' ');
    pen.put_decimal(height);
    pen.put_byte(b'\n');
    pen.put_bytes(b"-1.0\n");
}

// Puts a row's cells where a pen stands.
fn put_row(order: Order, cells: &[f32], pen: &mut Pen)
    requires { HasRoom pen.old (4 * length cells.now) }
    ensures { Writes pen.old (cells_bytes order cells.now) pen.new }
{
    for x in cells {
        put_cell(order, *x, pen);
    }
}

// Puts the rows where a pen stands, the bottom row first.
#[tactic(auto, using(crate::proofs::Rasters::row_room))]
fn put_rows(order: Order, cells: &[f32], width: usize, height: usize, pen: &mut Pen)
    requires cells_len { length cells.now ≡ width * height }
    requires height_in_bounds { HasRoom pen.old (4 * (width * height)) }
    ensures { Writes pen.old (cells_bytes order (bottom_up width height cells.now)) pen.new }
{
    for y in (0..height).rev() {
        let from = y * width;
        put_row(order, &cells[from..from + width], pen);
    }
}

// Writes the file of a map at the front of `out`, and answers its byte count; bytes beyond it are left as they were.
pub fn write_pfm(
    cells: &[f32],
    width: usize,
    height: usize,
    out: &mut [u8],
) -> Result<usize, Refusal>
    ensures { WriteOutcome 45 result (pfm_of width height cells.now) out.old out.new }
{
    let n = pfm_length(cells, width, height)?;
    if out.len() < n {
        return Err(Refusal::FileOutput);
    }
    let mut pen = Pen { out, at: 0 };
    put_head(width, height, &mut pen);
    put_rows(Order::Little, cells, width, height, &mut pen);
    Ok(pen.at)
}
