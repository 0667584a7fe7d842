// The path costs of a picture along one direction.
ghost use Rattle.std.specs.Prelude.{◌≡◌, cond, ◌+◌, ◌-◌, ◌*◌, ◌^◌, ◌<◌};
ghost use Rattle.paths.specs.Bounds.{Bounded};
ghost use Rattle.paths.specs.Path.{add_vec};
ghost use Rattle.paths.specs.Room.{put};
ghost use Rattle.paths.specs.Walk.{step_back, previous_of, path_cells, slot_of, slot_in, slot_path, SlotReady, path_volume, is_forward, UnitStep, Direction, pixels_in, cells_in, HaveCells};

use crate::pixel::{add_path, path_step};
use lists::copy_cells;

// What a path depends on: the picture's size, the disparity count, the columns and rows a step, and the penalties. That the step
// is a direction stands in clauses and no ghost field, since the specification makes walks of any two numbers.
#[derive(Clone, Copy)]
pub struct Walk {
    pub w: usize,
    pub h: usize,
    pub count: usize,
    pub dx: i32,
    pub dy: i32,
    pub p1: f32,
    pub p2: f32,
}

// The place one step before x on a line of n, which may be off it.
fn step_back(n: usize, step: i32, x: usize) -> Option<usize>
    requires { UnitStep step × (x < n) }
    ensures { result ≡ step_back n step x }
{
    if step == 0 {
        Some(x)
    } else if step == 1 {
        x.checked_sub(1)
    } else if x + 1 < n {
        Some(x + 1)
    } else {
        None
    }
}

// The slot for the path costs of the pixel in column x of row y. Two rows of slots are used by turns: a step reads its own
// row or the one visited before, so that what it reads is still in the cache.
fn slot_of(w: usize, x: usize, y: usize) -> usize
    requires { (x < w) × (y * w + x < 2 ^ 64) }
    ensures { result ≡ slot_of w (y * w + x) }
{
    (y % 2) * w + x
}

// The place on a line of n that is visited at turn t.
fn visited(forward: bool, n: usize, t: usize) -> usize
    requires { t < n }
    ensures { result ≡ cond forward t (n - 1 - t) }
{
    if forward { t } else { n - 1 - t }
}

impl Walk {
    // The slot of the previous pixel of the pixel in column x of row y.
    fn previous(self, x: usize, y: usize) -> Option<usize>
        requires { Direction self.dx self.dy × (x < self.w) × (y < self.h) × (pixels_in self < 2 ^ 64) }
        ensures { result ≡ slot_in self.w (previous_of self (y * self.w + x)) }
    {
        let column = step_back(self.w, self.dx, x)?;
        let row = step_back(self.h, self.dy, y)?;
        Some(slot_of(self.w, column, row))
    }

    // Whether the previous pixel has a smaller number, so that pixels are visited upwards.
    fn is_forward(self) -> bool
        requires { Direction self.dx self.dy }
        ensures { result ≡ is_forward self.dx self.dy }
    {
        if self.dy == 0 {
            self.dx == 1
        } else {
            self.dy == 1
        }
    }

    // Visits the pixel in column x of row y: its path costs go to its slot, and are added to its sums. Those in the slot of
    // the previous pixel are done.
    #[tactic(auto, using(crate::proofs::Visits::slot_end, crate::proofs::Visits::read_end))]
    fn visit(self, costs: &[f32], paths: &mut [f32], sums: &mut [f32], x: usize, y: usize)
        requires direction { Direction self.dx self.dy }
        requires some { 0 < self.count }
        requires inside { (x < self.w) × (y < self.h) }
        requires lengths { HaveCells (cells_in self) costs.now paths.old sums.old }
        requires ready { SlotReady self paths.old (y * self.w + x) }
        ensures path { paths.new ≡ put paths.old (slot_of self.w (y * self.w + x) * self.count) (slot_path self paths.old costs.now (y * self.w + x)) }
        ensures sum { sums.new ≡ put sums.old ((y * self.w + x) * self.count) (add_vec (path_cells self.count sums.old (y * self.w + x)) (slot_path self paths.old costs.now (y * self.w + x))) }
    {
        let count = self.count;
        let here = (y * self.w + x) * count;
        let at = slot_of(self.w, x, y) * count;
        let cost = &costs[here..here + count];
        match self.previous(x, y) {
            Some(slot) => path_step(paths, slot * count, at, cost, self.p1, self.p2),
            None => copy_cells(&mut paths[at..at + count], cost),
        }
        add_path(&mut sums[here..here + count], &paths[at..at + count]);
    }

    // The path costs of every pixel along one direction, each added to its sums; they themselves are kept for two rows only.
    pub fn add_paths(self, costs: &[f32], paths: &mut [f32], sums: &mut [f32])
        requires direction { Direction self.dx self.dy }
        requires some { 0 < self.count }
        requires lengths { HaveCells (cells_in self) costs.now paths.old sums.old }
        requires bounded { Bounded self.p1 self.p2 costs.now }
        ensures { sums.new ≡ add_vec sums.old (path_volume self costs.now) }
    {
        // Without columns there are no pixels, however many rows there are said to be.
        if self.w == 0 {
            return;
        }
        let forward = self.is_forward();
        for j in 0..self.h {
            for i in 0..self.w {
                let x = visited(forward, self.w, i);
                let y = visited(forward, self.h, j);
                self.visit(costs, paths, sums, x, y);
            }
        }
    }
}
