// Both sides' maps and the left-right test, for a match that is accepted.
ghost use Rattle.std.specs.Prelude.{◌≡◌, ◌*◌, length};
ghost use Rattle.options.specs.declared.Side.TheVariants.{Left, Right};
ghost use Rattle.lists.specs.Lists.{cleared};
ghost use Rattle.windows.specs.Window.{cells};
ghost use Rattle.choices.specs.LeftRight.{left_right};
ghost use Rattle.matching.specs.Maps.{volume_of, side_map, map_of};
ghost use Rattle.matching.specs.Inner.{MatchRoom, MapMade, SideRoom};

use crate::Match;
use choices::left_right::left_right;
use lists::copy_cells;
use options::Side;

impl Match<'_> {
    // The left map, tested against the right one. The right map is made in the output and kept in `map`, and the left one comes
    // from what stays of the right picture's raw costs.
    fn solve_both(self, out: &mut [f32], whole: &mut [u64], work: &mut [f32], map: &mut [f32])
        requires side_room { SideRoom self.pictures.left.now self.pictures.right.now self.pictures.w self.pictures.h self.opts (length out.old) (length whole.old) (length work.old) }
        requires map_len { length map.old ≡ length out.old }
        ensures made { out.new ≡ left_right self.entry.pictures.w self.entry.opts.lr_max_diff (side_map self.entry.pictures.w self.entry.pictures.h self.entry.opts (volume_of self.entry.pictures.w self.entry.pictures.h self.entry.opts Left self.entry.pictures.left.now self.entry.pictures.right.now)) (side_map self.entry.pictures.w self.entry.pictures.h self.entry.opts (volume_of self.entry.pictures.w self.entry.pictures.h self.entry.opts Right self.entry.pictures.left.now self.entry.pictures.right.now)) }
        ensures wholes { whole.new ≡ cleared 0 (5 * cells self.entry.pictures.w self.entry.pictures.h) whole.old }
    {
        self.solve_direction(Side::Right, out, whole, work);
        copy_cells(map, out);
        self.turn_direction(out, work);
        left_right(
            out,
            map,
            self.pictures.w,
            self.pictures.h,
            self.opts.lr_max_diff,
        );
    }

    // The map, in a room for a side's map and one for the right map.
    fn make_map(self, out: &mut [f32], whole: &mut [u64], work: &mut [f32], map: &mut [f32])
        requires side_room { SideRoom self.pictures.left.now self.pictures.right.now self.pictures.w self.pictures.h self.opts (length out.old) (length whole.old) (length work.old) }
        requires map_len { length map.old ≡ length out.old }
        ensures made { out.new ≡ map_of self.entry.pictures.w self.entry.pictures.h self.entry.opts self.entry.pictures.left.now self.entry.pictures.right.now }
        ensures wholes { whole.new ≡ cleared 0 (5 * cells self.entry.pictures.w self.entry.pictures.h) whole.old }
    {
        if self.opts.lr_consistency {
            self.solve_both(out, whole, work, map);
        } else {
            self.solve_direction(Side::Left, out, whole, work);
        }
    }

    // The map of a match that is accepted. The room is zero afterwards.
    pub fn solve(self, out: &mut [f32], whole: &mut [u64], room: &mut [f32])
        requires { MatchRoom self.pictures.left.now self.pictures.right.now self.pictures.w self.pictures.h self.opts (length out.old) (length whole.old) (length room.old) }
        ensures { MapMade self.entry.pictures.w self.entry.pictures.h (map_of self.entry.pictures.w self.entry.pictures.h self.entry.opts self.entry.pictures.left.now self.entry.pictures.right.now) out.new whole.old whole.new room.old room.new }
    {
        let kept = room.len() - self.pictures.w * self.pictures.h;
        let (work, map) = room.split_at_mut(kept);
        self.make_map(out, whole, work, map);
        room.fill(0.0);
    }
}
