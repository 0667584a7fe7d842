// The path costs of one pixel.
ghost use Rattle.std.specs.Prelude.{◌≡◌, ◌<◌, length};
ghost use Rattle.paths.specs.Bounds.{UpTo, All};
ghost use Rattle.paths.specs.Path.{least_of, best_of, path_cell, from_below, from_above, step_cell, step_vec, add_vec};
ghost use Rattle.paths.specs.Room.{run, put, Runs};

use numbers::plain::smaller;

// The least of the cells, found among their bit patterns: patterns of path costs stand in the order of the numbers, and of
// whole numbers the compiler compares several at once.
fn least_of(cells: &[f32]) -> f32
    requires { All (UpTo 1027) cells.now }
    ensures { result ≡ least_of cells.now }
{
    let mut lowest = f32::INFINITY.to_bits();
    for cell in cells {
        lowest = lowest.min(cell.to_bits());
    }
    f32::from_bits(lowest)
}

// One path cost: (cost + best) - least, where best is the least of the four ways.
fn path_cell(cost: f32, same: f32, below: f32, above: f32, jump: f32, least: f32) -> f32
    ensures { result ≡ path_cell cost (best_of same below above jump) least }
{
    let best = smaller(smaller(smaller(same, below), above), jump);
    (cost + best) - least
}

// The way from index k - 1 of the previous pixel; plus infinity, which no way is above, where there is none.
fn way_below(prev: &[f32], k: usize, p1: f32) -> f32
    requires { k < length prev.now }
    ensures { result ≡ from_below p1 prev.now k }
{
    if k == 0 {
        f32::INFINITY
    } else {
        prev[k - 1] + p1
    }
}

// The way from index k + 1 of the previous pixel; plus infinity where there is none. The two stay apart: one index is counted down to 0,
// the other up to the length, and the specification has a word for each.
fn way_above(prev: &[f32], k: usize, p1: f32) -> f32
    requires { k < length prev.now }
    ensures { result ≡ from_above p1 prev.now k }
{
    if k + 1 < prev.len() {
        prev[k + 1] + p1
    } else {
        f32::INFINITY
    }
}

// The path cost of index k, whichever neighbours it has.
fn path_end(prev: &[f32], cost: &[f32], k: usize, p1: f32, p2: f32, least: f32) -> f32
    requires inside { (k < length prev.now) × (k < length cost.now) }
    requires least { least ≡ least_of prev.now }
    ensures { result ≡ step_cell p1 p2 prev.now cost.now k }
{
    let below = way_below(prev, k, p1);
    let above = way_above(prev, k, p1);
    path_cell(cost[k], prev[k], below, above, least + p2, least)
}

// The path costs of a pixel, from those of the previous one and the matching costs: the first, then those that have both
// neighbours, then the last.
fn path_pixel(prev: &[f32], cost: &[f32], path: &mut [f32], p1: f32, p2: f32)
    requires lengths { (length prev.now ≡ length cost.now) × (length path.old ≡ length cost.now) }
    requires some { 0 < length cost.now }
    requires ranges { All (UpTo 1027) prev.now }
    ensures { path.new ≡ step_vec p1 p2 prev.now cost.now }
{
    let least = least_of(prev);
    let jump = least + p2;
    let last = cost.len() - 1;
    path[0] = path_end(prev, cost, 0, p1, p2, least);
    // By index: each cost reads three neighbours, and so the compiler makes several at once.
    for k in 1..last {
        let below = prev[k - 1] + p1;
        let above = prev[k + 1] + p1;
        path[k] = path_cell(cost[k], prev[k], below, above, jump, least);
    }
    path[last] = path_end(prev, cost, last, p1, p2, least);
}

// The path costs that go to the run from `at`, from those in the run from `from`.
pub fn path_step(paths: &mut [f32], from: usize, at: usize, cost: &[f32], p1: f32, p2: f32)
    requires runs { Runs paths.old from at (length cost.now) }
    requires some { 0 < length cost.now }
    requires ranges { All (UpTo 1027) (run (length cost.now) from paths.old) }
    ensures { paths.new ≡ put paths.old at (step_vec p1 p2 (run (length cost.now) from paths.old) cost.now) }
{
    let count = cost.len();
    if from < at {
        let (before, rest) = paths.split_at_mut(at);
        path_pixel(
            &before[from..from + count],
            cost,
            &mut rest[..count],
            p1,
            p2,
        );
    } else {
        let (before, rest) = paths.split_at_mut(from);
        path_pixel(&rest[..count], cost, &mut before[at..at + count], p1, p2);
    }
}

// Adds a pixel's path costs to its sums.
pub fn add_path(sums: &mut [f32], path: &[f32])
    requires { length sums.old ≡ length path.now }
    ensures { sums.new ≡ add_vec sums.old path.now }
{
    // The path by index: what is written through `iter_mut` under `zip` is not known to a proof.
    for (k, sum) in sums.iter_mut().enumerate() {
        *sum += path[k];
    }
}
