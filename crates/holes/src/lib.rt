// The holes of a raw volume: the pixels whose raw cost is blank at every index. They are read off the raw costs and never off the
// matching costs, where a raw cost of -1 is as dear as a blank one.
#![tactic(auto)]

ghost use Rattle.std.specs.Prelude.{◌≡◌, ◌*◌, ◌≤◌, length, get_or};
ghost use Rattle.std.specs.Float.{nan};
ghost use Rattle.lists.specs.Lists.{list_of};
ghost use Rattle.options.specs.Costs.{raw_of};
ghost use Rattle.options.specs.Limits.{side_most, most_count};
ghost use Rattle.maps.specs.Cells.{in_buffer, cell_of};
ghost use Rattle.holes.specs.Holes.{opened_by, open_at};

use maps::Cell;
use options::RawCost;

// What a pixel is after one more raw cost: one that is not blank opens it for a choice.
fn opened_by(cost: RawCost, before: Cell) -> Cell
    ensures { result ≡ opened_by cost before }
{
    match cost {
        RawCost::Blank => before,
        RawCost::Corr(_) => Cell::At(0.0),
    }
}

// One index over all pixels.
fn open_plane(out: &mut [f32], plane: &[f32])
    requires { length out.old ≡ length plane.now }
    ensures { out.new ≡ list_of (length plane.now) (λ p. in_buffer (opened_by (raw_of (get_or plane.now p nan)) (cell_of (get_or out.old p nan)))) }
{
    for (p, cell) in out.iter_mut().enumerate() {
        let cost = RawCost::from(plane[p]);
        *cell = f32::from(opened_by(cost, Cell::from(*cell)));
    }
}

// Every index over all pixels: the mark where a pixel is a hole, and 0 where a choice can be made.
pub fn mark_holes(out: &mut [f32], raw: &[f32], area: usize, count: usize)
    requires out_len { length out.old ≡ area }
    requires area_bound { area ≤ side_most * side_most }
    requires count_le_count_most { count ≤ most_count }
    requires area_in_bounds { count * area ≤ length raw.now }
    ensures { out.new ≡ list_of area (λ p. in_buffer (open_at raw.now area count p)) }
{
    out.fill(f32::from(Cell::Mark));
    // By the index: there may be no pixel at all, and then no chunks of `area` cells.
    for k in 0..count {
        let first = k * area;
        let last = first + area;
        open_plane(out, &raw[first..last]);
    }
}
