// The tables of a picture: a sum and a root for each of its windows.
ghost use Rattle.std.specs.Prelude.{◌≡◌, List, ℕ, ◌^◌, ◌≤◌};
ghost use Rattle.costs.specs.Roots.{root_bits, window_cell, sum_in, root_in, picture_tables};
ghost use Rattle.costs.specs.Rooms.{TablesFrom, TablesTurned, PictureRoom};

use crate::Frame;
use numbers::first_roots::{Firsts, first_roots};
use windows::{fill_levels, fill_squares, variance, window_sum};

// The bits of the root of a variance, 0 for 0.
fn root_bits(firsts: &Firsts, variance: u64) -> u64
    requires { variance ≤ 2 ^ 53 }
    ensures { result ≡ root_bits variance }
{
    if variance == 0 {
        0
    } else {
        f64::to_bits(firsts.root(variance))
    }
}

impl Frame {
    // Of the window whose top left corner is cell i: the sum of its levels, and the bits of the root of its variance; 0 where
    // none fits.
    fn window_at(self, firsts: &Firsts, pair: &[u64], i: usize) -> (u64, u64)
        requires { TablesTurned pair.now self.w self.h self.r i }
        ensures { (pic : List ℕ) → TablesFrom pair.now self.w self.h i pic → (result.0 ≡ window_cell self.w self.h self.r (sum_in self.w self.r pic) i) × (result.1 ≡ window_cell self.w self.h self.r (root_in self.w self.r pic) i) }
    {
        let Frame { w, h, r } = self;
        let side = w + 1;
        let column = i % side;
        let row = i / side;
        if w <= column + 2 * r || h <= row + 2 * r {
            return (0, 0);
        }
        let n = 2 * r + 1;
        let sum = window_sum(pair, side, i, n);
        let squares = window_sum(pair, side, side * (h + 1) + i, n);
        (
            sum,
            root_bits(firsts, variance((n * n) as u64, sum, squares)),
        )
    }

    // The two tables of a picture: sums and roots, which take the place of levels and squares cell by cell.
    // No later window reads a cell that is written: it is the top left corner, the first of the four.
    // The roots' table is made before the loop, once for all of them. The loop goes by index: a turn reads and writes two places of one slice.
    pub fn fill_picture(self, pair: &mut [u64], pic: &[u8])
        requires { PictureRoom pair.old pic.now self.w self.h self.r }
        ensures { pair.new ≡ picture_tables self.w self.h self.r pic.now }
    {
        let Frame { w, h, .. } = self;
        let cells = (w + 1) * (h + 1);
        let end = 2 * cells;
        fill_levels(&mut pair[0..cells], pic, w, h);
        fill_squares(&mut pair[cells..end], pic, w, h);
        let firsts = first_roots();
        for i in 0..cells {
            let (sum, bits) = self.window_at(&firsts, pair, i);
            pair[i] = sum;
            pair[cells + i] = bits;
        }
    }
}
