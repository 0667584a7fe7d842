// The raw cost of two windows, from the tables of the room. No step of it branches, so that a row of them can be worked out
// several cells at a time.
ghost use Rattle.std.specs.Prelude.{◌≡◌, cond, List, ℕ, ◌^◌, ◌<◌, ℤ, pos};
ghost use Rattle.std.specs.Float.{binary64};
ghost use Rattle.std.specs.Float.Ieee.{of_int};
ghost use Rattle.options.specs.declared.RawCost.TheVariants.{Blank, Corr};
ghost use Rattle.costs.specs.Raw.{pair_cost};
ghost use Rattle.windows.specs.Moments.{covariance_of};
ghost use Rattle.windows.specs.Table.{cross_at};
ghost use Rattle.windows.specs.Window.{window_sum};
ghost use Rattle.costs.specs.Quotient.{CountsExactly, is_flat, one, quotient_cost, Divisible};
ghost use Rattle.costs.specs.Rooms.{TablesOf, WindowsSummed, RoomOf, Pair};

use crate::Frame;
use numbers::narrow::narrow_plain;
use options::{BlockMatchOptions, RawCost};
use windows::window_sum;

// A whole number as an f64. The remainder is the number itself: it tells the compiler that 32 bits are enough.
fn counted(n: u64) -> f64
    requires { n < 2 ^ 32 }
    ensures { result ≡ of_int binary64 (pos n) }
{
    f64::from((n % 0x1_0000_0000) as u32)
}

// n·Sab - Sa·Sb, of the sums and the sum of products of two windows of n levels: f64 counts each step.
fn covariance(n: u64, sum_a: u64, sum_b: u64, products: u64) -> f64
    requires { CountsExactly n sum_a sum_b products }
    ensures { result ≡ of_int binary64 (covariance_of n sum_a sum_b products) }
{
    counted(n) * counted(products) - counted(sum_a) * counted(sum_b)
}

// Whether one of two roots is 0, by their bits.
fn is_flat(a: u64, b: u64) -> bool
    ensures { result ≡ is_flat a b }
{
    a == 0 || b == 0
}

// What the covariance is divided by: 1 where the quotient is not wanted.
fn divisor(flat: bool, product: f64) -> f64
    ensures { result ≡ cond flat one product }
{
    if flat { 1.0 } else { product }
}

// A raw cost: blank where a window shows one level.
fn cost_of(flat: bool, corr: f32) -> RawCost
    ensures { result ≡ cond flat Blank (Corr corr) }
{
    if flat {
        BlockMatchOptions::BLANK
    } else {
        RawCost::Corr(corr)
    }
}

// The covariance over the product of two roots, which are given by their bits.
pub fn quotient(cov: f64, a: u64, b: u64) -> RawCost
    requires { Divisible cov a b }
    ensures { result ≡ quotient_cost cov a b }
{
    let flat = is_flat(a, b);
    let product = f64::from_bits(a) * f64::from_bits(b);
    let corr = narrow_plain(cov / divisor(flat, product));
    cost_of(flat, corr)
}

impl Frame {
    // The same of the windows at (x, y) of the reference and at (other, y) of the target, whose sum of products is given.
    pub fn summed_cost(
        self,
        room: &[u64],
        x: usize,
        other: usize,
        y: usize,
        products: u64,
    ) -> RawCost
        requires { WindowsSummed room.now self.w self.h self.r x other y products }
        ensures { (s : ℤ) (a b : List ℕ) → TablesOf room.now self.w self.h self.r a b → products ≡ window_sum (cross_at self.w a b s) x y self.r → result ≡ pair_cost self.w self.r a b s x other y }
    {
        let Frame { w, h, r } = self;
        let side = w + 1;
        let cells = side * (h + 1);
        let top = (y - r) * side;
        let here = top + (x - r);
        let there = top + (other - r);
        let n = 2 * r + 1;
        let cov = covariance(
            (n * n) as u64,
            room[here],
            room[2 * cells + there],
            products,
        );
        quotient(cov, room[cells + here], room[3 * cells + there])
    }

    // The raw cost of the window at (x, y) of the reference and the one at (other, y) of the target.
    pub fn pair_cost(self, room: &[u64], x: usize, other: usize, y: usize) -> RawCost
        requires { Pair room.now self.w self.h self.r x other y }
        ensures { (s : ℤ) (a b : List ℕ) → RoomOf room.now self.w self.h self.r s a b → result ≡ pair_cost self.w self.r a b s x other y }
    {
        let Frame { w, h, r } = self;
        let side = w + 1;
        let corner = (y - r) * side + (x - r);
        let products = window_sum(room, side, 4 * (side * (h + 1)) + corner, 2 * r + 1);
        self.summed_cost(room, x, other, y, products)
    }
}
