// Reading a PFM map: all of it is judged first, so that a refusal comes before any cell is written.
ghost use Rattle.std.specs.Prelude.{◌≡◌, ◌*◌, length};
ghost use Rattle.lists.specs.Rows.{bottom_up};
ghost use Rattle.refusals.specs.Given.{given_back};
ghost use Rattle.netpbm.specs.Pfm.{take_pfm_head, file_cells, read_pfm};
ghost use Rattle.netpbm.specs.Outcome.{size_of, ReadOutcome};
ghost use Rattle.netpbm.specs.Inner.{pfm_read, held_pfm, MapAs};

use crate::header::{read_ended, read_word};
use crate::order::{Order, cell_at};
use crate::raster::{Size, judge_size};
use crate::scale::read_scale;
use refusals::Refusal;

// Width, height and the order of the bytes, as the header says them.
#[derive(Clone, Copy)]
pub struct PfmNumbers {
    pub width: u64,
    pub height: u64,
    pub order: Order,
}

// The header.
#[tactic(auto, using(crate::proofs::Headers::held_is, crate::proofs::Headers::held_refused), unfolding(crate::specs::Pfm::take_pfm_head))]
fn read_pfm_head(s: &[u8]) -> Result<(PfmNumbers, &[u8]), Refusal>
    ensures { pfm_read result ≡ held_pfm (take_pfm_head s.now) }
{
    let s = read_word(s, b"Pf\n")?;
    let (width, s) = read_ended(s, b" ")?;
    let (height, s) = read_ended(s, b"\n")?;
    let (order, rest) = read_scale(s)?;
    Ok((
        PfmNumbers {
            width,
            height,
            order,
        },
        rest,
    ))
}

// The order, the size and the cells' bytes of a map all of which was judged.
#[tactic(auto, using(crate::proofs::Readings::map_none, crate::proofs::Readings::map_refused, crate::proofs::Readings::map_is))]
fn judge_pfm(s: &[u8]) -> Result<(Order, Size, &[u8]), Refusal>
    ensures { MapAs s.now result }
{
    let (head, bytes) = read_pfm_head(s)?;
    let size = judge_size(4, head.width, head.height, bytes)?;
    Ok((head.order, size, bytes))
}

// Reads a row's cells.
#[tactic(auto, using(crate::proofs::Rasters::filled_none, crate::proofs::Rasters::filled_all))]
fn fill_row(order: Order, s: &[u8], out: &mut [f32])
    requires { length s.now ≡ 4 * length out.old }
    ensures { out.new ≡ file_cells order (length out.old) s.now }
{
    for (i, cell) in out.iter_mut().enumerate() {
        *cell = cell_at(order, s, 4 * i);
    }
}

// Reads the rows, of which the bottom one comes first. They are counted: of cells lent by `chunks_mut` a proof knows nothing afterwards.
#[tactic(auto, using(crate::proofs::Rasters::rows_none, crate::proofs::Rasters::rows_room, crate::proofs::Rasters::rows_lent))]
fn fill_rows(order: Order, width: usize, height: usize, s: &[u8], out: &mut [f32])
    requires out_len { length out.old ≡ width * height }
    requires s_len { length s.now ≡ 4 * (width * height) }
    ensures { out.new ≡ bottom_up width height (file_cells order (width * height) s.now) }
{
    let mut from = 0;
    for y in (0..height).rev() {
        let at = 4 * (y * width);
        fill_row(order, &s[at..at + 4 * width], &mut out[from..from + width]);
        from += width;
    }
}

// The size of a map, without its cells.
pub fn pfm_size(s: &[u8]) -> Result<Size, Refusal>
    ensures { given_back result ≡ size_of (read_pfm s.now) }
{
    let (_, size, _) = judge_pfm(s)?;
    Ok(size)
}

// Reads a map's cells into `out`, which is to be as long as the map.
#[tactic(auto, using(crate::proofs::Readings::read_refused, crate::proofs::Readings::read_unfit, crate::proofs::Readings::read_done))]
pub fn read_pfm(s: &[u8], out: &mut [f32]) -> Result<Size, Refusal>
    ensures { ReadOutcome result (read_pfm s.now) out.old out.new }
{
    let (order, size, bytes) = judge_pfm(s)?;
    if out.len() != size.width * size.height {
        return Err(Refusal::FileOutput);
    }
    fill_rows(order, size.width, size.height, bytes, out);
    Ok(size)
}
