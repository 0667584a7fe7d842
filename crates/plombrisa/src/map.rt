// A map's figures, for hosts: 0, or the number of the refusal, which leaves what is lent as it was.
ghost use Rattle.maps.specs.Map.{valid_count, valid_range, cover_of};
ghost use Rattle.plombrisa.specs.Host.{HostTold, span_in, HostRange};

use crate::told::tell_count;
use maps::{MapView, cover};

// How many cells are valid.
#[unsafe(no_mangle)]
pub extern "C" fn plombrisa_valid_count(
    cells: &[f32],
    width: usize,
    height: usize,
    count: &mut u64,
) -> u32
    ensures { HostTold result (valid_count width height cells.now) count.old count.new }
{
    tell_count(MapView::new(width, height, cells).valid_count(), count)
}

// The cover figure by a block: valid cells of the inner frame to a thousand, rounded down.
#[unsafe(no_mangle)]
pub extern "C" fn plombrisa_cover(
    cells: &[f32],
    width: usize,
    height: usize,
    block_size: usize,
    permille: &mut u64,
) -> u32
    ensures { HostTold result (cover_of width height cells.now block_size) permille.old permille.new }
{
    tell_count(
        cover(MapView::new(width, height, cells), block_size),
        permille,
    )
}

// The least and the greatest valid number. `some` is 1 where there are, and 0 where no cell is valid: then the two are as they were.
#[unsafe(no_mangle)]
pub extern "C" fn plombrisa_valid_range(
    cells: &[f32],
    width: usize,
    height: usize,
    some: &mut u32,
    least: &mut f32,
    greatest: &mut f32,
) -> u32
    ensures { HostRange result (valid_range width height cells.now) (span_in some.old least.old greatest.old) (span_in some.new least.new greatest.new) }
{
    match MapView::new(width, height, cells).valid_range() {
        Ok(Some(span)) => {
            *some = 1;
            *least = span.least;
            *greatest = span.greatest;
            0
        }
        Ok(None) => {
            *some = 0;
            0
        }
        Err(refusal) => u32::from(refusal),
    }
}
