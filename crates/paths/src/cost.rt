// The matching cost, and a volume of them from a raw volume.
ghost use Rattle.std.specs.Prelude.{◌≡◌, ◌+◌, ◌*◌, ◌<◌, ◌≤◌, pos, ◌-ℤ◌, length, get_or};
ghost use Rattle.std.specs.Float.{nan};
ghost use Rattle.lists.specs.Lists.{list_of};
ghost use Rattle.options.specs.Costs.{raw_of};
ghost use Rattle.options.specs.Limits.{first_most};
ghost use Rattle.paths.specs.Cost.{matching_cost, matching_costs, costs_from, Turnable, turned_at, turned_row, turned_costs};
ghost use Rattle.paths.specs.Room.{spread};

use options::{BlockMatchOptions, FIRST_MOST, RawCost};

// The matching cost of a raw cost.
pub fn matching_cost(cost: RawCost) -> f32
    ensures { result ≡ matching_cost cost }
{
    match cost {
        RawCost::Blank => BlockMatchOptions::WORST_COST,
        RawCost::Corr(v) => 1.0 - v,
    }
}

// The matching costs with index k of some pixels, from their raw costs: each goes to the pixel's run of `count` cells.
fn fill_index(raw: &[f32], costs: &mut [f32], count: usize, k: usize)
    requires { (length costs.old ≡ length raw.now * count) × (k < count) }
    ensures { costs.new ≡ spread (length raw.now) count k (λ d. matching_cost (raw_of (get_or raw.now d nan))) costs.old }
{
    for (d, cell) in raw.iter().enumerate() {
        costs[d * count + k] = matching_cost(RawCost::from(*cell));
    }
}

// The matching costs of the n pixels from pixel p on.
fn fill_pixels(raw: &[f32], costs: &mut [f32], area: usize, count: usize, p: usize, n: usize)
    requires inside { p + n ≤ area }
    requires lengths { (length raw.now ≡ count * area) × (length costs.old ≡ n * count) }
    ensures { costs.new ≡ costs_from area count p n raw.now }
{
    for k in 0..count {
        let from = k * area + p;
        fill_index(&raw[from..from + n], costs, count, k);
    }
}

// The matching costs of every pixel, from the raw volume, which lies in planes of `area` cells. 16 pixels are taken together:
// their raw costs with one index are a line of the cache.
pub fn fill_costs(raw: &[f32], costs: &mut [f32], area: usize, count: usize)
    requires { (length raw.now ≡ count * area) × (length costs.old ≡ area * count) }
    ensures { costs.new ≡ matching_costs area count raw.now }
{
    // Parts by index, here and below: what `chunks_mut` lends is not known to a proof afterwards.
    for p in (0..area).step_by(16) {
        let n = (area - p).min(16);
        let at = p * count;
        fill_pixels(raw, &mut costs[at..at + n * count], area, count, p, n);
    }
}

// Costs that are turned to the other picture: the picture's size, the disparity count, and the first disparity.
#[derive(Clone, Copy)]
pub struct Turn {
    pub w: usize,
    pub h: usize,
    pub count: usize,
    pub first: i32,
    pub ghost turnable: { Turnable w count first },
}

impl Turn {
    // The largest first disparity minus this one, which is never negative.
    fn shift(self) -> usize
        ensures { pos result ≡ pos first_most -ℤ self.first }
    {
        (FIRST_MOST - self.first) as usize
    }

    // The cost with index k for the other picture, of a pixel whose row has these costs.
    fn cost(self, row: &[f32], far: usize, k: usize) -> f32
        requires { (length row.now ≡ self.w * self.count) × (k < self.count) }
        ensures { result ≡ turned_at self.w self.count far row.now k }
    {
        // Two tests and no `checked_sub`, which takes more instructions here.
        let back = FIRST_MOST as usize + k;
        if far < back {
            return BlockMatchOptions::WORST_COST;
        }
        let x = far - back;
        if x < self.w {
            row[x * self.count + k]
        } else {
            BlockMatchOptions::WORST_COST
        }
    }

    // The costs of one pixel for the other picture.
    fn pixel(self, row: &[f32], to: &mut [f32], far: usize)
        requires { (length row.now ≡ self.w * self.count) × (length to.old ≡ self.count) }
        ensures { to.new ≡ list_of self.count (turned_at self.w self.count far row.now) }
    {
        for (k, cell) in to.iter_mut().enumerate() {
            *cell = self.cost(row, far, k);
        }
    }

    // The costs of a row for the other picture.
    fn row(self, row: &[f32], to: &mut [f32], shift: usize)
        requires lengths { (length row.now ≡ self.w * self.count) × (length to.old ≡ self.w * self.count) }
        requires near { self.w + shift ≤ 3 * first_most }
        ensures { to.new ≡ turned_row self.w self.count shift row.now }
    {
        let count = self.count;
        for x in 0..self.w {
            let at = x * count;
            self.pixel(row, &mut to[at..at + count], x + shift);
        }
    }
}

// The costs for the other picture, of every pixel.
pub fn turn_costs(from: &[f32], to: &mut [f32], turn: Turn)
    requires { (length from.now ≡ turn.w * turn.h * turn.count) × (length to.old ≡ turn.w * turn.h * turn.count) }
    ensures { to.new ≡ turned_costs turn.w turn.h turn.first turn.count from.now }
{
    let shift = turn.shift();
    let line = turn.w * turn.count;
    for y in 0..turn.h {
        let at = y * line;
        turn.row(&from[at..at + line], &mut to[at..at + line], shift);
    }
}
