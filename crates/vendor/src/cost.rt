// One raw cost at a time: from the products' table of its index, or, where that is not there, from the products themselves.
ghost use Rattle.std.specs.Prelude.{◌≡◌, ◌≤◌, ◌<◌, ℤ, pos, ◌+ℤ◌, length};
ghost use Rattle.lists.specs.Sums.{sum_to};
ghost use Rattle.options.specs.Limits.{side_most};
ghost use Rattle.windows.specs.Table.{cross_at};
ghost use Rattle.windows.specs.Window.{Inside, window_sum};
ghost use Rattle.windows.specs.Parts.{product_in};
ghost use Rattle.costs.specs.Rooms.{RoomOf};
ghost use Rattle.vendor.specs.Verdict.{cost_at};
ghost use Rattle.vendor.specs.Tests.{shift_at, target_of};
ghost use Rattle.vendor.specs.Inner.{CheckSizes, Tabled};

use crate::Check;
use costs::Frame;
use costs::volume::shift_at;
use options::{BlockMatchOptions, RawCost, Side, is_inner, is_within};
use windows::product;

// Two pictures, the room where their tables stand, and what their map is checked by.
#[derive(Clone, Copy)]
pub struct Tables<'a> {
    pub left: &'a [u8],
    pub right: &'a [u8],
    pub room: &'a [u64],
    pub check: Check,
    ghost stand: { Tabled room.now check left.now right.now },
}

// The products of two rows' levels, added.
fn row_products(a: &[u8], b: &[u8]) -> u64
    requires { (length b.now ≡ length a.now) × (length a.now ≤ side_most) }
    ensures { result ≡ sum_to (length a.now) (product_in a.now b.now) }
{
    let mut sum: u64 = 0;
    for (x, y) in a.iter().zip(b) {
        sum += product(*x, *y);
    }
    sum
}

impl Check {
    // The target column of (x, y) with index k, where both windows lie within their pictures.
    fn target_column(self, x: usize, y: usize, k: usize) -> Option<usize>
        requires { CheckSizes self × (x < self.frame.w) × (k < self.search.count) }
        ensures { result ≡ target_of self x y k }
    {
        let Frame { w, h, r } = self.frame;
        if !is_inner(w, h, r, x, y) {
            return None;
        }
        let column = x as i64 + shift_at(Side::Left, self.search.first as i64, k);
        // The sign is tested before the cast, as the contract's own words go by the sign.
        if column < 0 {
            return None;
        }
        let other = column as usize;
        is_within(w, r, other).then_some(other)
    }
}

impl Tables<'_> {
    // The products of the levels of the left picture's window at (x, y) by those of the right one's at (other, y), added.
    fn window_products(self, x: usize, other: usize, y: usize) -> u64
        requires { Inside self.check.frame.w self.check.frame.h x y self.check.frame.r × Inside self.check.frame.w self.check.frame.h other y self.check.frame.r }
        ensures { (s : ℤ) → pos x +ℤ s ≡ pos other → result ≡ window_sum (cross_at self.entry.check.frame.w self.entry.left.now self.entry.right.now s) x y self.entry.check.frame.r }
    {
        let Frame { w, r, .. } = self.check.frame;
        let n = 2 * r + 1;
        let mut sum: u64 = 0;
        for j in 0..n {
            let row = (y - r + j) * w;
            let here = row + (x - r);
            let there = row + (other - r);
            sum += row_products(&self.left[here..here + n], &self.right[there..there + n]);
        }
        sum
    }

    // The raw cost at (x, y) with index k, from the products themselves.
    pub fn direct_cost(self, x: usize, y: usize, k: usize) -> RawCost
        requires { (x < self.check.frame.w) × (k < self.check.search.count) }
        ensures { result ≡ cost_at self.entry.check self.entry.left.now self.entry.right.now x y k }
    {
        let Some(other) = self.check.target_column(x, y, k) else {
            return BlockMatchOptions::BLANK;
        };
        let products = self.window_products(x, other, y);
        self.check
            .frame
            .summed_cost(self.room, x, other, y, products)
    }

    // The same from the products' table of index k, which stands in the room.
    pub fn tabled_cost(self, x: usize, y: usize, k: usize) -> RawCost
        requires { RoomOf self.room.now self.check.frame.w self.check.frame.h self.check.frame.r (shift_at self.check k) self.left.now self.right.now × (x < self.check.frame.w) × (k < self.check.search.count) }
        ensures { result ≡ cost_at self.entry.check self.entry.left.now self.entry.right.now x y k }
    {
        let Some(other) = self.check.target_column(x, y, k) else {
            return BlockMatchOptions::BLANK;
        };
        self.check.frame.pair_cost(self.room, x, other, y)
    }
}
