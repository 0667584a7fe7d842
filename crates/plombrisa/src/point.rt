// The point of a pixel and a disparity, and the list of a map's points, for hosts.
ghost use Rattle.points.specs.Point.{point_of};
ghost use Rattle.plombrisa.specs.Host.{point_in, HostPoint, HostPoints};
ghost use Rattle.plombrisa.specs.Options.{intrinsics_of};

use crate::told::tell_count;
use maps::MapView;
use points::{Intrinsics, PointRecord, points};

// Whether there is a point; where there is none, what is lent is left as it was. The intrinsics are taken as they are.
#[unsafe(no_mangle)]
pub extern "C" fn plombrisa_rectified_point(
    fx: f64,
    fy: f64,
    cx: f64,
    cy: f64,
    baseline: f64,
    x: f64,
    y: f64,
    disparity: f64,
    px: &mut f64,
    py: &mut f64,
    pz: &mut f64,
) -> bool
    ensures { HostPoint result (point_of (intrinsics_of fx fy cx cy baseline) x y disparity) (point_in px.old py.old pz.old) (point_in px.new py.new pz.new) }
{
    let k = Intrinsics {
        fx,
        fy,
        cx,
        cy,
        baseline,
    };
    let Some(point) = k.rectified_point(x, y, disparity) else {
        return false;
    };
    *px = point.x;
    *py = point.y;
    *pz = point.z;
    true
}

// Writes the record of each cell that gives a point, rows first; records beyond them are left as they were. 0, or the number of
// the refusal, which leaves what is lent as it was.
#[unsafe(no_mangle)]
pub extern "C" fn plombrisa_points(
    cells: &[f32],
    width: usize,
    height: usize,
    fx: f64,
    fy: f64,
    cx: f64,
    cy: f64,
    baseline: f64,
    list: &mut [PointRecord],
    count: &mut u64,
) -> u32
    ensures { HostPoints result width height cells.now (intrinsics_of fx fy cx cy baseline) list.old list.new count.old count.new }
{
    let k = Intrinsics {
        fx,
        fy,
        cx,
        cy,
        baseline,
    };
    tell_count(points(list, MapView::new(width, height, cells), k), count)
}
