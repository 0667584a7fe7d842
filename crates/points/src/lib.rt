// The points of a disparity map: the point formula, its checks, and the list of point records, which the caller lends.
#![tactic(auto)]

ghost use Rattle.std.specs.Prelude.{◌≡◌, ◌*◌, ◌<◌, ◌≤◌};
ghost use Rattle.options.specs.Limits.{side_most};
ghost use Rattle.refusals.specs.Given.{given_back};
ghost use Rattle.points.specs.Point.{is_positive, point_at, point_of, good_camera, good_baseline};
ghost use Rattle.points.specs.Records.{points_in, point_record, filled_for, PointsOutcome};

use maps::{MapView, size_good};
use numbers::plain::is_finite;
use refusals::Refusal;

// The camera's numbers and the baseline.
#[derive(Clone, Copy, Debug, PartialEq)]
pub struct Intrinsics {
    pub fx: f64,
    pub fy: f64,
    pub cx: f64,
    pub cy: f64,
    pub baseline: f64,
}

// A point in space.
#[derive(Clone, Copy, Debug, PartialEq)]
pub struct Point3 {
    pub x: f64,
    pub y: f64,
    pub z: f64,
}

// A point, the pixel whose cell gave it, and that cell's disparity. The C interface has its six fields in a row.
#[repr(C)]
#[derive(Clone, Copy, Debug, PartialEq)]
pub struct PointRecord {
    pub x: f64,
    pub y: f64,
    pub z: f64,
    pub column: usize,
    pub row: usize,
    pub disparity: f64,
}

// Whether a number is finite and positive.
fn is_positive(x: f64) -> bool
    ensures { result ≡ is_positive x }
{
    x.is_finite() && 0.0 < x
}

// Whether a cell gives a point: it is valid and positive.
fn is_point(c: f32) -> bool
    ensures { result ≡ is_positive c }
{
    is_finite(c) && 0.0 < c
}

// How many cells give a point. A loop, since a filtered count takes longer.
fn points_in(cells: &[f32]) -> usize
    ensures { result ≡ points_in cells.now }
{
    let mut n: usize = 0;
    for c in cells {
        if is_point(*c) {
            n += 1;
        }
    }
    n
}

impl Intrinsics {
    // Whether fx and fy are finite and positive, and cx and cy finite.
    #[tactic(auto, using(crate::proofs::Facts::finite_is), unfolding(crate::specs::Point::good_camera))]
    fn is_camera_good(self) -> bool
        ensures { result ≡ good_camera self }
    {
        is_positive(self.fx) && is_positive(self.fy) && self.cx.is_finite() && self.cy.is_finite()
    }

    // Whether the baseline is finite and over 1e-12.
    #[tactic(auto, using(crate::proofs::Facts::finite_is), unfolding(crate::specs::Point::good_baseline))]
    fn is_baseline_good(self) -> bool
        ensures { result ≡ good_baseline self }
    {
        self.baseline.is_finite() && 1e-12 < self.baseline
    }

    // The point of a pixel and a disparity by the formula alone.
    fn point_at(self, x: f64, y: f64, disparity: f64) -> Point3
        ensures { result ≡ point_at self x y disparity }
    {
        let z = (self.fx * self.baseline) / disparity;
        Point3 {
            x: ((x - self.cx) * z) / self.fx,
            y: ((y - self.cy) * z) / self.fy,
            z,
        }
    }

    // The point of a pixel and a disparity, where there is one. The intrinsics are taken as they are.
    #[tactic(auto, using(crate::proofs::Facts::finite_is), unfolding(crate::specs::Point::point_of))]
    pub fn rectified_point(self, x: f64, y: f64, disparity: f64) -> Option<Point3>
        ensures { result ≡ point_of self x y disparity }
    {
        if is_positive(disparity) && x.is_finite() && y.is_finite() {
            Some(self.point_at(x, y, disparity))
        } else {
            None
        }
    }

    // The record of the cell at i of a map, a number c.
    #[tactic(auto, unfolding(crate::specs::Records::point_record))]
    fn point_record(self, width: usize, i: usize, c: f32) -> PointRecord
        requires wide { 0 < width }
        requires few { i ≤ side_most * side_most }
        ensures { result ≡ point_record width self i c }
    {
        let column = i % width;
        let row = i / width;
        let disparity = f64::from(c);
        let Point3 { x, y, z } = self.point_at(column as f64, row as f64, disparity);
        PointRecord {
            x,
            y,
            z,
            column,
            row,
            disparity,
        }
    }
}

// How many records the points of a map are, or why a list of `room` records for them is refused.
#[tactic(auto, unfolding(refusals::specs::Answered::first_of, crate::specs::Records::filled_for))]
fn records_asked(room: usize, map: MapView, camera: Intrinsics) -> Result<usize, Refusal>
    ensures { given_back result ≡ filled_for map.entry.width map.entry.height map.entry.cells.now camera room }
{
    if !camera.is_camera_good() {
        return Err(Refusal::CameraOutOfRange);
    }
    if !camera.is_baseline_good() {
        return Err(Refusal::BaselineOutOfRange);
    }
    if !size_good(map.width, map.height, map.cells.len()) {
        return Err(Refusal::MapSize);
    }
    let count = points_in(map.cells);
    if room < count {
        return Err(Refusal::ListTooShort);
    }
    Ok(count)
}

// Writes the record of each cell that gives a point, rows first. The answer is how many.
pub fn points(list: &mut [PointRecord], map: MapView, camera: Intrinsics) -> Result<usize, Refusal>
    ensures { PointsOutcome result map.entry.width map.entry.height map.entry.cells.now camera list.old list.new }
{
    let count = records_asked(list.len(), map, camera)?;

    // By index, since a proof knows nothing of what an adapter of `iter_mut` wrote. Behind the last point no cell is read.
    let mut n: usize = 0;
    for (i, c) in map.cells.iter().enumerate() {
        if n == count {
            break;
        }
        if is_point(*c) {
            list[n] = camera.point_record(map.width, i, *c);
            n += 1;
        }
    }
    Ok(count)
}
