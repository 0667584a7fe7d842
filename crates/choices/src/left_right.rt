// The left-right test: a map made from the right has to confirm each disparity.
ghost use Rattle.std.specs.Prelude.{◌≡◌, ◌*◌, ◌<◌, ◌≤◌, T, length};
ghost use Rattle.std.specs.Float.Ieee.Scale.{finite};
ghost use Rattle.options.specs.Limits.{side_most};
ghost use Rattle.choices.specs.LeftRight.{near, confirms, tested_cell, left_right};

use maps::Cell;
use numbers::away::round_half_away;
use numbers::plain::{is_finite, magnitude};

// Whether the right map's cell c is valid, and near the left disparity d.
fn is_near(limit: f32, d: f32, c: Cell) -> bool
    ensures { result ≡ near limit d c }
{
    match c {
        Cell::Mark => false,
        Cell::At(dr) => is_finite(dr) && !(magnitude(d - dr) > limit),
    }
}

// The cells of a right map of h rows of w, and how far from it a left disparity may be.
#[derive(Clone, Copy)]
struct RightMap<'a> {
    cells: &'a [f32],
    w: usize,
    h: usize,
    limit: f32,
    ghost whole: { length cells.now ≡ w * h },
    ghost narrow: { w ≤ side_most },
}

impl<'a> RightMap<'a> {
    // Whether it confirms the valid left disparity d at pixel p.
    fn confirms(self, p: usize, d: f32) -> bool
        requires p_bound { p < self.w * self.h }
        requires t { T (finite d) }
        ensures { result ≡ confirms self.entry.w self.entry.limit self.entry.cells.now p d }
    {
        let x = p % self.w;
        let xr = round_half_away(x as f32 - d);
        if xr < 0.0 || xr >= self.w as f32 {
            return false;
        }
        let i = std::num::truncating_f32_to_u64(xr) as usize;
        is_near(
            self.limit,
            d,
            Cell::from(self.cells[p / self.w * self.w + i]),
        )
    }

    // The left cell d at pixel p after the test.
    #[tactic(auto, unfolding(crate::specs::LeftRight::tested_cell))]
    fn tested(self, p: usize, d: f32) -> f32
        requires { p < self.w * self.h }
        ensures { result ≡ tested_cell self.entry.w self.entry.limit self.entry.cells.now p d }
    {
        if is_finite(d) && !self.confirms(p, d) {
            f32::from(Cell::Mark)
        } else {
            d
        }
    }
}

// The left-right test on the left map `out`.
pub fn left_right(out: &mut [f32], right: &[f32], w: usize, h: usize, limit: f32)
    requires out_len { length out.old ≡ w * h }
    requires right_len { length right.now ≡ w * h }
    requires w_le_side_most { w ≤ side_most }
    ensures { out.new ≡ left_right w limit out.old right.now }
{
    let right = RightMap {
        cells: right,
        w,
        h,
        limit,
    };
    for (p, d) in out.iter_mut().enumerate() {
        *d = right.tested(p, *d);
    }
}
