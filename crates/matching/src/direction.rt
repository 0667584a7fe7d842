// The map made from one side, and the one made from what stays of the other's, for a match that is accepted.
ghost use Rattle.std.specs.Prelude.{◌≡◌, length};
ghost use Rattle.options.specs.declared.Mode.TheVariants.{Block, SemiGlobal};
ghost use Rattle.matching.specs.Inner.{SideRoom, SideMade, TurningRoom, LeftMade};

use crate::Match;
use crate::block::search_of;
use choices::block::Seen;
use choices::semi_global::select_sgm;
use costs::Pictures;
use costs::volume::volume_of;
use options::{Mode, Side};
use paths::cost::{Turn, fill_costs, turn_costs};
use paths::sums::aggregate_sgm;

impl Match<'_> {
    // By the raw costs: the room holds the raw volume, and keeps it.
    fn solve_block(self, side: Side, out: &mut [f32], whole: &mut [u64], room: &mut [f32])
        requires side_room { SideRoom self.pictures.left.now self.pictures.right.now self.pictures.w self.pictures.h self.opts (length out.old) (length whole.old) (length room.old) }
        requires mode_value { self.opts.mode ≡ Block }
        ensures { SideMade self.entry.pictures.w self.entry.pictures.h self.entry.opts side self.entry.pictures.left.now self.entry.pictures.right.now out.new whole.old whole.new room.new }
    {
        volume_of(self.pictures, self.opts, side, room, whole);
        self.choose_block(out, room, Seen::Own);
    }

    // By path sums, in a room of three volumes: the matching costs stay in the first, their path sums are the second, and the
    // path costs take the place of the raw volume in the third.
    fn solve_semi_global(self, side: Side, out: &mut [f32], whole: &mut [u64], room: &mut [f32])
        requires side_room { SideRoom self.pictures.left.now self.pictures.right.now self.pictures.w self.pictures.h self.opts (length out.old) (length whole.old) (length room.old) }
        requires mode_value { self.opts.mode ≡ SemiGlobal }
        ensures { SideMade self.entry.pictures.w self.entry.pictures.h self.entry.opts side self.entry.pictures.left.now self.entry.pictures.right.now out.new whole.old whole.new room.new }
    {
        let Match { pictures, opts } = self;
        let Pictures { w, h, .. } = pictures;
        let search = search_of(opts);
        let count = search.count;
        let area = w * h;
        let (costs, rest) = room.split_at_mut(count * area);
        let (sums, raw) = rest.split_at_mut(count * area);
        volume_of(pictures, opts, side, raw, whole);
        fill_costs(raw, costs, area, count);
        aggregate_sgm(costs, raw, sums, w, h, count, opts.sgm_p1, opts.sgm_p2);
        select_sgm(out, sums, w, h, opts.block_size / 2, search);
    }

    // The map made from one side, and what stays of its raw costs.
    pub fn solve_direction(self, side: Side, out: &mut [f32], whole: &mut [u64], room: &mut [f32])
        requires { SideRoom self.pictures.left.now self.pictures.right.now self.pictures.w self.pictures.h self.opts (length out.old) (length whole.old) (length room.old) }
        ensures { SideMade self.entry.pictures.w self.entry.pictures.h self.entry.opts side self.entry.pictures.left.now self.entry.pictures.right.now out.new whole.old whole.new room.new }
    {
        match self.opts.mode {
            Mode::Block => self.solve_block(side, out, whole, room),
            Mode::SemiGlobal => self.solve_semi_global(side, out, whole, room),
        }
    }

    // The left map by path sums, from the right picture's matching costs in the first volume: those turned go to the second, and
    // their path sums take the place of the first.
    fn turn_semi_global(self, out: &mut [f32], room: &mut [f32])
        requires turning_room { TurningRoom self.pictures.w self.pictures.h self.opts (length out.old) room.old }
        requires mode_value { self.opts.mode ≡ SemiGlobal }
        ensures { LeftMade self.entry.pictures.w self.entry.pictures.h self.entry.opts room.old out.new }
    {
        let Match { pictures, opts } = self;
        let Pictures { w, h, .. } = pictures;
        let search = search_of(opts);
        let count = search.count;
        let one = count * (w * h);
        let turn = Turn {
            w,
            h,
            count,
            first: search.first,
        };
        let (sums, rest) = room.split_at_mut(one);
        let (costs, paths) = rest.split_at_mut(one);
        turn_costs(sums, costs, turn);
        aggregate_sgm(costs, paths, sums, w, h, count, opts.sgm_p1, opts.sgm_p2);
        select_sgm(out, sums, w, h, opts.block_size / 2, search);
    }

    // The left map, from what stays of the right picture's raw costs.
    pub fn turn_direction(self, out: &mut [f32], room: &mut [f32])
        requires { TurningRoom self.pictures.w self.pictures.h self.opts (length out.old) room.old }
        ensures { LeftMade self.entry.pictures.w self.entry.pictures.h self.entry.opts room.old out.new }
    {
        match self.opts.mode {
            Mode::Block => self.choose_block(out, room, Seen::Turned),
            Mode::SemiGlobal => self.turn_semi_global(out, room),
        }
    }
}
