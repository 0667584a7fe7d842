// The cells of a vendor's map, each against one raw cost at a time.
ghost use Rattle.std.specs.Prelude.{◌≡◌, not, ◌||◌, ◌+◌, ◌*◌, ◌^◌, ◌≤◌, ◌<◌, length};
ghost use Rattle.std.specs.Float.Ieee.Scale.{finite};
ghost use Rattle.vendor.specs.declared.cells.Question.TheVariants.{Unbeaten};
ghost use Rattle.lists.specs.Lists.{first_not};
ghost use Rattle.vendor.specs.Tests.{index_named, own_cost, is_fit, holds, holds_at};
ghost use Rattle.vendor.specs.Inner.{Searched, Asked, PixelPlaced};

use crate::cost::Tables;
use choices::subpixel::{Search, disparity_at};
use numbers::plain::is_finite;
use options::{BlockMatchOptions, RawCost};

// What a valid cell is asked: whether its own raw cost is fit, or whether that of one index does not beat it.
// It is an enum and no closure, since the contracts name the question that is asked.
#[derive(Clone, Copy, Debug, PartialEq, Eq)]
pub enum Question {
    Fit,
    Unbeaten(usize),
}

// A pixel of a map: its number by rows, its column and its row.
#[derive(Clone, Copy)]
struct Pixel {
    p: usize,
    x: usize,
    y: usize,
}

impl Pixel {
    // The next pixel by rows.
    fn next(self, w: usize) -> Pixel
        requires { PixelPlaced w self × (1 ≤ w) × (self.p + 1 < 2 ^ 64) }
        ensures { (result.p ≡ self.p + 1) × PixelPlaced w result }
    {
        if self.x + 1 == w {
            return Pixel {
                p: self.p + 1,
                x: 0,
                y: self.y + 1,
            };
        }
        Pixel {
            p: self.p + 1,
            x: self.x + 1,
            y: self.y,
        }
    }
}

// The index of the disparity that a number is, if it is one of the searched range. Minus zero is 0.
fn index_named(search: Search, v: f32) -> Option<usize>
    requires { Searched search }
    ensures { result ≡ index_named search v }
{
    for k in 0..search.count {
        if v == disparity_at(search, k) {
            return Some(k);
        }
    }
    None
}

// Whether a raw cost is not blank and not below a number.
fn is_fit(least: f32, own: RawCost) -> bool
    ensures { result ≡ is_fit least own }
{
    match own {
        RawCost::Blank => false,
        RawCost::Corr(v) => !(v < least),
    }
}

impl Tables<'_> {
    // The raw cost of the disparity that a number is, blank where it is none.
    fn own_cost(self, x: usize, y: usize, v: f32) -> RawCost
        requires { x < self.check.frame.w }
        ensures { result ≡ own_cost self.entry.check self.entry.left.now self.entry.right.now x y v }
    {
        match index_named(self.check.search, v) {
            Some(k) => self.direct_cost(x, y, k),
            None => BlockMatchOptions::BLANK,
        }
    }

    // Whether the raw cost of index k does not beat that of the number v. One that is not above the least correlation cannot beat a fit
    // one, so that the number's own raw cost is worked out for few indices only.
    fn is_unbeaten(self, x: usize, y: usize, k: usize, v: f32) -> bool
        requires { Asked self.room.now self.check self.left.now self.right.now (Unbeaten k) × (x < self.check.frame.w) }
        ensures { result ≡ holds self.entry.check self.entry.left.now self.entry.right.now x y (Unbeaten k) v }
    {
        let RawCost::Corr(cost) = self.tabled_cost(x, y, k) else {
            return true;
        };
        if cost <= self.check.least {
            return true;
        }
        let RawCost::Corr(own) = self.own_cost(x, y, v) else {
            return false;
        };
        !(own < cost)
    }

    // What a cell at (x, y), with the number v, answers; one that is not valid passes.
    fn cell_holds(self, x: usize, y: usize, question: Question, v: f32) -> bool
        requires { Asked self.room.now self.check self.left.now self.right.now question × (x < self.check.frame.w) }
        ensures { result ≡ (not (finite v) || holds self.entry.check self.entry.left.now self.entry.right.now x y question v) }
    {
        if !is_finite(v) {
            return true;
        }
        match question {
            Question::Fit => is_fit(self.check.least, self.own_cost(x, y, v)),
            Question::Unbeaten(k) => self.is_unbeaten(x, y, k, v),
        }
    }

    // The first of the map's pixels before a limit for which a question does not hold, and the limit where it holds for all.
    pub fn first_failing(self, map: &[f32], question: Question, limit: usize) -> usize
        requires { Asked self.room.now self.check self.left.now self.right.now question × (length map.now ≡ self.check.frame.w * self.check.frame.h) × (limit ≤ self.check.frame.w * self.check.frame.h) }
        ensures { result ≡ first_not limit (holds_at self.entry.check self.entry.left.now self.entry.right.now question map.now) }
    {
        // Column and row are counted along, since a division for each cell shows where pictures are narrow.
        let mut at = Pixel { p: 0, x: 0, y: 0 };
        for v in &map[..limit] {
            if !self.cell_holds(at.x, at.y, question, *v) {
                return at.p;
            }
            at = at.next(self.check.frame.w);
        }
        limit
    }
}
