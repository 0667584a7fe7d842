// The volume of a heap of points, for hosts: 0, or the number of the refusal, which leaves what is lent as it was.
ghost use Rattle.volume.specs.Outcome.{grid_shape};
ghost use Rattle.plombrisa.specs.Host.{HostTold, grid_in, figures_in, HostHeap};
ghost use Rattle.plombrisa.specs.Options.{site_of};

use crate::told::{tell_heap, tell_shape};
use volume::heap::{heap_shape, heap_volume};
use volume::site::Site;

// The cells of a row and the rows of a site's grid.
#[unsafe(no_mangle)]
pub extern "C" fn plombrisa_heap_shape(
    left: i64,
    right: i64,
    top: i64,
    bottom: i64,
    cell: usize,
    floor: i64,
    columns: &mut u64,
    rows: &mut u64,
) -> u32
    ensures { HostTold result (grid_shape (site_of left right top bottom cell floor)) (grid_in columns.old rows.old) (grid_in columns.new rows.new) }
{
    let site = Site {
        left,
        right,
        top,
        bottom,
        cell,
        floor,
    };
    tell_shape(heap_shape(site), columns, rows)
}

// The volume of the points whose coordinates are given, with the heights in the lent grid, which has a cell for each of the site's.
#[unsafe(no_mangle)]
pub extern "C" fn plombrisa_heap_volume(
    xs: &[f64],
    ys: &[f64],
    zs: &[f64],
    left: i64,
    right: i64,
    top: i64,
    bottom: i64,
    cell: usize,
    floor: i64,
    grid: &mut [u64],
    volume: &mut u64,
    inside: &mut u64,
    outside: &mut u64,
    empty: &mut u64,
) -> u32
    ensures { HostHeap result (site_of left right top bottom cell floor) xs.now ys.now zs.now grid.old grid.new (figures_in volume.old inside.old outside.old empty.old) (figures_in volume.new inside.new outside.new empty.new) }
{
    let site = Site {
        left,
        right,
        top,
        bottom,
        cell,
        floor,
    };
    tell_heap(
        heap_volume(grid, xs, ys, zs, site),
        volume,
        inside,
        outside,
        empty,
    )
}
