// The raw volume: one plane for each index.
ghost use Rattle.std.specs.Prelude.{◌≡◌, ◌+◌, ◌*◌, ◌/◌, ◌≤◌, ◌<◌, nat_abs, length, drop};
ghost use Rattle.lists.specs.Lists.{cleared};
ghost use Rattle.options.specs.Limits.{first_most, most_count};
ghost use Rattle.windows.specs.Window.{cells};
ghost use Rattle.costs.specs.Raw.{shift_of};
ghost use Rattle.costs.specs.Volume.{planes_of, raw_volume};
ghost use Rattle.costs.specs.Rooms.{VolumeSizes, VolumeTabled, VolumeAccepted};

use crate::{Frame, Pictures};
use options::{BlockMatchOptions, Side};
use windows::fill_cross;

// What a volume is made of: the pictures' size, the window's half side, and what is searched.
#[derive(Clone, Copy)]
pub struct Plan {
    pub frame: Frame,
    pub side: Side,
    pub first: i64,
    pub count: usize,
}

// How far right of x the target column lies at index k.
pub fn shift_at(side: Side, first: i64, k: usize) -> i64
    requires { (nat_abs first ≤ first_most) × (k < most_count) }
    ensures { result ≡ shift_of side first k }
{
    let d = first + k as i64;
    match side {
        Side::Left => -d,
        Side::Right => d,
    }
}

impl Plan {
    // The planes of all indices, from the tables of the two pictures; the products' table is filled anew for each.
    fn fill_planes(self, out: &mut [f32], room: &mut [u64], a: &[u8], b: &[u8])
        requires { VolumeTabled (length out.old) room.old a.now b.now self.frame.w self.frame.h self.frame.r self.first self.count }
        ensures { (out.new ≡ planes_of self.side self.frame.w self.frame.h self.frame.r self.first self.count a.now b.now) × (drop (5 * cells self.frame.w self.frame.h) room.new ≡ drop (5 * cells self.frame.w self.frame.h) room.old) }
    {
        let Plan {
            frame,
            side,
            first,
            count,
        } = self;
        let Frame { w, h, .. } = frame;
        let area = w * h;
        let cells = (w + 1) * (h + 1);
        let four = 4 * cells;
        let five = 5 * cells;
        // By index, since a proof knows nothing of the cells behind `chunks_mut`.
        for k in 0..count {
            let shift = shift_at(side, first, k);
            fill_cross(&mut room[four..five], a, b, w, h, shift);
            let from = k * area;
            let to = from + area;
            frame.raw_plane(&mut out[from..to], room, shift);
        }
    }

    // The raw volume of the reference a and the target b; the room's cells that were needed are zero afterwards.
    fn make_volume(self, out: &mut [f32], room: &mut [u64], a: &[u8], b: &[u8])
        requires { VolumeSizes (length out.old) (length room.old) a.now b.now self.frame.w self.frame.h self.frame.r self.first self.count }
        ensures { (out.new ≡ planes_of self.side self.frame.w self.frame.h self.frame.r self.first self.count a.now b.now) × (room.new ≡ cleared 0 (5 * cells self.frame.w self.frame.h) room.old) }
    {
        let frame = self.frame;
        let cells = (frame.w + 1) * (frame.h + 1);
        let two = 2 * cells;
        let four = 4 * cells;
        let five = 5 * cells;
        frame.fill_picture(&mut room[0..two], a);
        frame.fill_picture(&mut room[two..four], b);
        self.fill_planes(out, room, a, b);
        room[0..five].fill(0);
    }
}

// The raw volume of a call that is not refused.
pub fn volume_of(
    pictures: Pictures,
    opts: BlockMatchOptions,
    side: Side,
    out: &mut [f32],
    room: &mut [u64],
)
    requires { VolumeAccepted pictures.left.now pictures.right.now pictures.w pictures.h opts (length out.old) (length room.old) }
    ensures { (out.new ≡ raw_volume side pictures.entry.w pictures.entry.h (opts.block_size / 2) opts.min_disparity (nat_abs opts.num_disparities) pictures.entry.left.now pictures.entry.right.now) × (room.new ≡ cleared 0 (5 * cells pictures.entry.w pictures.entry.h) room.old) }
{
    let Pictures { left, right, w, h } = pictures;
    let plan = Plan {
        frame: Frame {
            w,
            h,
            r: opts.block_size / 2,
        },
        side,
        first: opts.min_disparity as i64,
        count: opts.num_disparities as usize,
    };
    match side {
        Side::Left => plan.make_volume(out, room, left, right),
        Side::Right => plan.make_volume(out, room, right, left),
    }
}
