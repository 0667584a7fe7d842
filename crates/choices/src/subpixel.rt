// The disparity of a chosen index, refined by the numbers of its two neighbours: raw costs or sums.
ghost use Rattle.std.specs.Prelude.{◌≡◌, ◌<◌, ◌≤◌, pos, ◌+ℤ◌, unsigned_abs};
ghost use Rattle.options.specs.Limits.{most_count, first_most};
ghost use Rattle.choices.specs.Subpixel.{disparity, has_sides, refined};

use numbers::plain::{is_finite, magnitude};

// What is searched: `count` disparities from `first`, and whether the best is refined.
// Its bounds stand at the functions, since the specification speaks of a search that any options make.
#[derive(Clone, Copy)]
pub struct Search {
    pub first: i32,
    pub count: usize,
    pub subpixel: bool,
}

// The disparity with index k as a whole number of columns.
pub(crate) fn columns_at(search: Search, k: usize) -> i32
    requires first_bound { unsigned_abs search.first ≤ first_most }
    requires k_lt_count_most { k < most_count }
    ensures { result ≡ search.first +ℤ pos k }
{
    search.first + k as i32
}

// The disparity with index k.
pub fn disparity_at(search: Search, k: usize) -> f32
    requires first_bound { unsigned_abs search.first ≤ first_most }
    requires k_lt_count_most { k < most_count }
    ensures { result ≡ disparity search k }
{
    columns_at(search, k) as f32
}

// Whether sub-pixel is on, and index k has a neighbour on either side.
pub fn has_sides(search: Search, k: usize) -> bool
    requires { k < most_count }
    ensures { result ≡ has_sides search k }
{
    search.subpixel && 0 < k && k + 1 < search.count
}

// d moved to the peak of the parabola through its own number and its neighbours', if these are finite and the peak is less than
// one step away.
#[tactic(auto, unfolding(crate::specs::Subpixel::refined, crate::specs::Subpixel::denom, crate::specs::Subpixel::delta))]
pub fn refine(d: f32, cm: f32, best: f32, cp: f32) -> f32
    ensures { result ≡ refined d cm best cp }
{
    if is_finite(cm) && is_finite(cp) {
        let denom = (cm + cp) - 2.0 * best;
        if magnitude(denom) > 1e-6 {
            let delta = (0.5 * (cm - cp)) / denom;
            if magnitude(delta) < 1.0 {
                return d + delta;
            }
        }
    }
    d
}
