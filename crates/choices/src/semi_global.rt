// Semi-global choice: the least sum of path costs of each pixel. No gate applies.
ghost use Rattle.std.specs.Prelude.{◌≡◌, ◌*◌, ◌<◌, ◌≤◌, map, length, unsigned_abs};
ghost use Rattle.options.specs.Limits.{most_count, first_most};
ghost use Rattle.maps.specs.Cells.{in_buffer};
ghost use Rattle.choices.specs.Subpixel.{placed};
ghost use Rattle.choices.specs.SemiGlobal.{lesser, least_of, semi_choice, semi_cell, semi_map};

use super::subpixel::{Search, disparity_at, has_sides, refine};
use maps::Cell;
use options::is_inner;

// The least sum of a pixel with its index.
#[derive(Drop)]
pub struct Least {
    pub k: usize,
    pub sum: f32,
}

// The least so far, or the sum c with index k where that is less.
fn lesser_of(s: Least, k: usize, c: f32) -> Least
    ensures { result ≡ lesser s k c }
{
    if c < s.sum { Least { k, sum: c } } else { s }
}

// The sums of a pixel by index, one for each disparity searched.
#[derive(Clone, Copy)]
struct Run<'a> {
    sums: &'a [f32],
    search: Search,
    ghost whole: { length sums.now ≡ search.count },
    ghost few: { search.count ≤ most_count },
    ghost close: { unsigned_abs search.first ≤ first_most },
}

impl<'a> Run<'a> {
    // The least sum, ties to the smaller index.
    fn least(self) -> Least
        ensures { result ≡ least_of self.entry.sums.now }
    {
        let mut least = Least {
            k: 0,
            sum: 1.0 / 0.0,
        };
        for (k, sum) in self.sums.iter().enumerate() {
            least = lesser_of(least, k, *sum);
        }
        least
    }

    // The disparity at index k, whose sum is best.
    #[tactic(auto, unfolding(crate::specs::Subpixel::placed))]
    fn placed(self, k: usize, best: f32) -> f32
        requires { k < most_count }
        ensures { result ≡ placed self.entry.search self.entry.sums.now k best }
    {
        let d = disparity_at(self.search, k);
        if has_sides(self.search, k) {
            refine(d, self.sums[k - 1], best, self.sums[k + 1])
        } else {
            d
        }
    }

    // Semi-global choice from these sums.
    #[tactic(auto, unfolding(crate::specs::SemiGlobal::semi_choice))]
    fn choice(self) -> Cell
        ensures { result ≡ semi_choice self.entry.search self.entry.sums.now }
    {
        let least = self.least();
        Cell::At(self.placed(least.k, least.sum))
    }
}

// Semi-global choice at pixel p of a w by h map: the mark in the frame of r pixels.
#[tactic(auto, unfolding(crate::specs::SemiGlobal::semi_cell))]
fn semi_cell(sums: &[f32], w: usize, h: usize, r: usize, p: usize, search: Search) -> Cell
    requires p_bound { p < w * h }
    requires count_in_bounds { w * h * search.count ≤ length sums.now }
    requires first_bound { unsigned_abs search.first ≤ first_most }
    requires count_le_count_most { search.count ≤ most_count }
    ensures { result ≡ semi_cell w h r search sums.now p }
{
    if is_inner(w, h, r, p % w, p / w) {
        let first = p * search.count;
        let last = first + search.count;
        let run = Run {
            sums: &sums[first..last],
            search,
        };
        run.choice()
    } else {
        Cell::Mark
    }
}

// The map of the semi-global choices, one cell for each pixel, in `out`.
pub fn select_sgm(out: &mut [f32], sums: &[f32], w: usize, h: usize, r: usize, search: Search)
    requires out_len { length out.old ≡ w * h }
    requires count_in_bounds { w * h * search.count ≤ length sums.now }
    requires first_bound { unsigned_abs search.first ≤ first_most }
    requires count_le_count_most { search.count ≤ most_count }
    ensures { out.new ≡ map in_buffer (semi_map w h r search sums.now) }
{
    for (p, cell) in out.iter_mut().enumerate() {
        *cell = f32::from(semi_cell(sums, w, h, r, p, search));
    }
}
