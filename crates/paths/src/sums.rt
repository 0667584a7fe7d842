// The sums of the path costs of the eight directions.
ghost use Rattle.std.specs.Prelude.{◌≡◌, ◌*◌, ◌<◌};
ghost use Rattle.paths.specs.Bounds.{Bounded};
ghost use Rattle.paths.specs.Walk.{path_sums, HaveCells};

use crate::direction::Walk;

// The eight directions: columns and rows a step.
const DIRECTIONS: [[i32; 2]; 8] = [
    [1, 0],
    [-1, 0],
    [0, 1],
    [0, -1],
    [1, 1],
    [1, -1],
    [-1, 1],
    [-1, -1],
];

// The sums of the path costs of the eight directions, from the matching costs. What the cells of `paths` hold in the end is
// not told.
pub fn aggregate_sgm(
    costs: &[f32],
    paths: &mut [f32],
    sums: &mut [f32],
    w: usize,
    h: usize,
    count: usize,
    p1: f32,
    p2: f32,
)
    requires some { 0 < count }
    requires lengths { HaveCells (w * h * count) costs.now paths.old sums.old }
    requires bounded { Bounded p1 p2 costs.now }
    ensures { sums.new ≡ path_sums w h count p1 p2 costs.now }
{
    sums.fill(0.0);
    for [dx, dy] in DIRECTIONS {
        let walk = Walk {
            w,
            h,
            count,
            dx,
            dy,
            p1,
            p2,
        };
        walk.add_paths(costs, paths, sums);
    }
}
