// One plane of the raw volume: the raw costs of all pixels with one index.
ghost use Rattle.std.specs.Prelude.{◌≡◌, true, List, ℕ, ◌+◌, ◌-◌, ◌*◌, ◌/◌, ◌≤◌, ◌<◌, ℤ, nat_abs, length};
ghost use Rattle.std.specs.Float.{inf};
ghost use Rattle.lists.specs.Lists.{list_of};
ghost use Rattle.options.specs.Limits.{side_most, block_most, shift_most};
ghost use Rattle.options.specs.Costs.{stored};
ghost use Rattle.costs.specs.Raw.{pair_cost};
ghost use Rattle.costs.specs.Span.{window_span};
ghost use Rattle.costs.specs.Volume.{row_cells, plane_cells};
ghost use Rattle.costs.specs.Rooms.{RoomOf, RoomReady, WindowsInLine};

use crate::Frame;
use options::{BlockMatchOptions, is_within};
use windows::distance;

// The columns of a row where both windows lie within it, and where the target's begin.
#[derive(Clone, Copy, Debug, PartialEq, Eq)]
pub struct Span {
    pub first: usize,
    pub other: usize,
    pub count: usize,
}

impl Frame {
    // Those columns, for one shift.
    fn span_of(self, shift: i64) -> Span
        requires { (self.w ≤ side_most) × (self.r ≤ block_most / 2) × (nat_abs shift ≤ shift_most) }
        ensures { result ≡ window_span self.w self.r shift }
    {
        let Frame { w, r, .. } = self;
        let apart = distance(shift);
        let count = w.saturating_sub(2 * r + apart);
        if shift < 0 {
            return Span {
                first: r + apart,
                other: r,
                count,
            };
        }
        Span {
            first: r,
            other: r + apart,
            count,
        }
    }

    // The cells from column x on, whose targets begin in column `other`.
    fn raw_span(self, part: &mut [f32], room: &[u64], y: usize, x: usize, other: usize)
        requires { WindowsInLine room.now self.w self.h self.r x other y (length part.old) }
        ensures { (s : ℤ) (a b : List ℕ) → RoomOf room.now self.w self.h self.r s a b → part.new ≡ list_of (length part.old) (λ i. stored (pair_cost self.w self.r a b s (x + i) (other + i) y)) }
    {
        for (i, cell) in part.iter_mut().enumerate() {
            *cell = f32::from(self.pair_cost(room, x + i, other + i, y));
        }
    }

    // Row y of the plane.
    fn raw_row(self, row: &mut [f32], room: &[u64], y: usize, shift: i64)
        requires { RoomReady room.now self.w self.h self.r shift × (nat_abs shift ≤ shift_most) × (y < self.h) × (length row.old ≡ self.w) }
        ensures { (a b : List ℕ) → RoomOf room.now self.w self.h self.r shift a b → row.new ≡ row_cells self.w self.h self.r a b shift y }
    {
        row.fill(f32::from(BlockMatchOptions::BLANK));
        if !is_within(self.h, self.r, y) {
            return;
        }
        let span = self.span_of(shift);
        let first = span.first;
        let other = span.other;
        let end = first + span.count;
        if first < end {
            self.raw_span(&mut row[first..end], room, y, first, other);
        }
    }

    // The plane, row by row.
    pub fn raw_plane(self, plane: &mut [f32], room: &[u64], shift: i64)
        requires { RoomReady room.now self.w self.h self.r shift × (nat_abs shift ≤ shift_most) × (length plane.old ≡ self.w * self.h) }
        ensures { (a b : List ℕ) → RoomOf room.now self.w self.h self.r shift a b → plane.new ≡ plane_cells self.w self.h self.r a b shift }
    {
        let Frame { w, h, .. } = self;
        // By index, since a proof knows nothing of the cells behind `chunks_mut`.
        for y in 0..h {
            let first = y * w;
            let last = first + w;
            self.raw_row(&mut plane[first..last], room, y, shift);
        }
    }
}
