// Matching two pictures: the block map, the semi-global map, and the left-right test (docs/SPECIFICATION.md).
#![tactic(auto)]

ghost use Rattle.std.specs.Prelude.{length};
ghost use Rattle.refusals.specs.Given.{number_in};
ghost use Rattle.matching.specs.Outcome.{match_call, MatchOutcome};

use calls::{Call, Output};
use costs::Pictures;
use options::BlockMatchOptions;
use refusals::Refusal;

pub mod block;
mod direction;
mod solve;

// A match that is accepted: the pictures, and what is asked for.
#[derive(Clone, Copy)]
pub struct Match<'a> {
    pub pictures: Pictures<'a>,
    pub opts: BlockMatchOptions,
}

// The map of two pictures: cell (x, y) in cell y·w + x of `out`, the mark as a NaN; then the cells needed of both rooms are
// zero. A refusal leaves every lent cell as it was.
pub fn match_block(
    left: &[u8],
    left_w: usize,
    left_h: usize,
    right: &[u8],
    right_w: usize,
    right_h: usize,
    opts: BlockMatchOptions,
    out: &mut [f32],
    whole_room: &mut [u64],
    float_room: &mut [f32],
) -> Result<(), Refusal>
    ensures { MatchOutcome (number_in result) (match_call left.now left_w left_h right.now right_w right_h opts (length out.old) (length whole_room.old) (length float_room.old)) opts left.now right.now out.old out.new whole_room.old whole_room.new float_room.old float_room.new }
{
    let call = Call {
        output: Output::Map,
        left_w,
        left_h,
        left_bytes: left.len(),
        right_w,
        right_h,
        right_bytes: right.len(),
        first: opts.min_disparity,
        count: opts.num_disparities,
        block: opts.block_size,
        mode: opts.mode,
        p1: opts.sgm_p1,
        p2: opts.sgm_p2,
        out_len: out.len(),
        whole_len: whole_room.len(),
        float_len: float_room.len(),
    };
    call.check()?;
    let needed = call.float_cells();
    let pair = Match {
        pictures: Pictures {
            left,
            right,
            w: left_w,
            h: left_h,
        },
        opts,
    };
    pair.solve(out, whole_room, &mut float_room[0..needed]);
    Ok(())
}
